// The frame in hand, made of another.
ghost use Rattle.std.specs.Prelude.{◌≡◌, ◌+◌, min};
ghost use Rattle.codes.specs.Part.{part_of};
ghost use Rattle.codes.specs.Status.{bit};
ghost use Rattle.edges.specs.Frames.{no_frame, with_byte, with_code, with_value, with_out, with_address, with_latch};

use crate::Frame;
use codes::most_of;
use latch::Latch;

impl Frame {
    // No byte and no bit taken.
    pub fn none() -> Frame
        ensures { result ≡ no_frame }
    {
        Frame {
            taken: 0,
            bits: 0,
            partial: 0,
            code: 0,
            ran: 0,
            value: 0,
            out: 0,
            shown: 0,
            address: 0,
            latch: Latch::none(),
        }
    }

    // One whole byte more; the count stays at its most.
    pub(crate) fn with_byte(mut self, part: u8) -> Frame
        ensures { result ≡ with_byte (part_of part) self }
    {
        let taken = one_more(part, self.taken);
        self.taken = taken;
        self.bits = 0;
        self.partial = 0;
        self
    }

    pub(crate) fn with_code(mut self, code: u8, running: bool) -> Frame
        ensures { result ≡ with_code code running self }
    {
        let ran = bit(running);
        self.code = code;
        self.ran = ran;
        self
    }

    pub(crate) fn with_value(mut self, value: u8) -> Frame
        ensures { result ≡ with_value value self }
    {
        self.value = value;
        self
    }

    pub(crate) fn with_out(mut self, out: u8, shown: u8) -> Frame
        ensures { result ≡ with_out out shown self }
    {
        self.out = out;
        self.shown = shown;
        self
    }

    pub(crate) fn with_address(mut self, address: u32) -> Frame
        ensures { result ≡ with_address address self }
    {
        self.address = address;
        self
    }

    pub(crate) fn with_latch(mut self, latch: Latch) -> Frame
        ensures { result ≡ with_latch latch self }
    {
        self.latch = latch;
        self
    }
}

// One whole byte more; the count stays at its most.
pub fn one_more(part: u8, taken: u8) -> u8
    ensures { result ≡ min (part_of part).most (taken + 1) }
{
    taken.saturating_add(1).min(most_of(part))
}

// A level as a number: 1 for high. By name, as the contracts of those who call it speak of it.
pub fn bit(level: bool) -> u8
    ensures { result ≡ bit level }
{
    u8::from(level)
}
