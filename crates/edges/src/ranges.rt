// Is the frame in hand inside its ranges. Each part of the test has a definition of its own.
ghost use Rattle.std.specs.Prelude.{◌≡◌, ◌&&◌, ◌+◌, ◌-◌, ◌%◌, ◌^◌, ◌<◌, eqb, ltb};
ghost use Rattle.codes.specs.Part.{part_of};
ghost use Rattle.codes.specs.Instructions.{decode};
ghost use Rattle.edges.specs.Ranges.{partial_fits, counts_fit, code_fits, address_fits, valued, latches, out_fits};
ghost use Rattle.edges.specs.Ranges.{fields_fit, frame_fits};

use crate::Frame;
use crate::falling::outputs;
use crate::places::{less, place};
use codes::{Instruction, head_of, is_wrid, is_write, most_of, picks_lock, size_of};

// The bits taken of the current byte, and no others.
fn partial_fits(bits: u8, partial: u8) -> bool
    ensures { result ≡ partial_fits bits partial }
{
    bits <= 7 && u32::from(partial) < 1 << bits
}

// What lies below the last address byte taken is 0.
fn taken_so_far(part: u8, taken: u8, address: u32) -> bool
    ensures { result
        ≡ (ltb address (part_of part).size && eqb (address % 256 ^ ((part_of part).address_bytes + 1 - taken)) 0) }
{
    let place = place(less(head_of(part), taken));
    ((address as usize) < size_of(part)) & (u64::from(address) % place == 0)
}

fn address_fits(part: u8, i: Instruction, taken: u8, address: u32) -> bool
    ensures { result ≡ address_fits (part_of part) i taken address }
{
    match i {
        Instruction::Read | Instruction::Write | Instruction::Rdid | Instruction::Wrid =>
            taken_so_far(part, taken, address),
        _ => address == 0,
    }
}

fn valued(part: u8, i: Instruction, address: u32, taken: u8) -> bool
    ensures { result ≡ valued (part_of part) i address taken }
{
    match i {
        Instruction::Wrsr => 2 <= taken,
        Instruction::Wrid => picks_lock(address) & (head_of(part) < taken),
        _ => false,
    }
}

// A WRITE or a WRID that picks no lock, once its data has begun.
fn latches(part: u8, i: Instruction, address: u32, taken: u8) -> bool
    ensures { result ≡ latches (part_of part) i address taken }
{
    (is_write(i) | is_wrid(i) & !picks_lock(address)) & (head_of(part) < taken)
}

impl Frame {
    fn counts_fit(self, part: u8) -> bool
        ensures { result ≡ counts_fit (part_of part) self }
    {
        (self.taken <= most_of(part)) & partial_fits(self.bits, self.partial)
    }

    fn code_fits(self) -> bool
        ensures { result ≡ code_fits self }
    {
        if self.taken == 0 {
            return (self.code == 0) & (self.ran == 0);
        }
        self.ran <= 1
    }

    fn out_fits(self, part: u8, i: Instruction) -> bool
        ensures { result ≡ out_fits (part_of part) i self }
    {
        if self.shown == 0 {
            return self.out == 0;
        }
        (self.shown <= 8) & outputs(part, i, self.taken, self.ran == 1)
    }

    fn fields_fit(self, part: u8, i: Instruction) -> bool
        ensures { result ≡ fields_fit (part_of part) i self }
    {
        let latch = self.latch;
        let address = address_fits(part, i, self.taken, self.address);
        let value = valued(part, i, self.address, self.taken) | (self.value == 0);
        let marks = latches(part, i, self.address, self.taken);
        address & value & self.out_fits(part, i) & latch.fits(part, marks)
    }

    // Is it inside its ranges, for every frame in hand.
    pub fn fits(self, part: u8) -> bool
        ensures { result ≡ frame_fits (part_of part) self }
    {
        self.counts_fit(part)
            & self.code_fits()
            & self.fields_fit(part, codes::decode(part, self.code))
    }
}
