// The front of a device: all of it but the bytes it latches and its core. A list of events holds the front apart, and
// most events move a few numbers of it where they stand; the record of 632 bytes is put together only for the others.
ghost use Rattle.std.specs.Prelude.{◌≡◌};
ghost use Rattle.latch.specs.declared.Latch.{Latch};
ghost use Rattle.latch.specs.Latches.{no_latch};
ghost use Rattle.chip.specs.declared.Core.{Core};
ghost use Rattle.edges.specs.Falling.{level_number};
ghost use Rattle.pins.specs.Devices.{q};
ghost use Rattle.lists.specs.Ways.{front_of, whole, without_frame};

use crate::Front;
use chip::Core;
use edges::{Frame, level_of};
use latch::Latch;
use pins::{Device, Pins};

// The front of a whole device.
pub(crate) fn front_of(device: Device) -> Front
    ensures { result ≡ front_of device }
{
    Front {
        s: device.pins.s,
        c: device.pins.c,
        d: device.pins.d,
        w: device.pins.w,
        hold: device.pins.hold,
        held: device.held,
        taken: device.frame.taken,
        bits: device.frame.bits,
        partial: device.frame.partial,
        code: device.frame.code,
        ran: device.frame.ran,
        value: device.frame.value,
        out: device.frame.out,
        shown: device.frame.shown,
        address: device.frame.address,
    }
}

impl Front {
    // The whole device again.
    pub(crate) fn whole(self, latch: Latch, core: Core) -> Device
        ensures { result ≡ whole self latch core }
    {
        Device {
            pins: Pins {
                s: self.s,
                c: self.c,
                d: self.d,
                w: self.w,
                hold: self.hold,
            },
            held: self.held,
            frame: Frame {
                taken: self.taken,
                bits: self.bits,
                partial: self.partial,
                code: self.code,
                ran: self.ran,
                value: self.value,
                out: self.out,
                shown: self.shown,
                address: self.address,
                latch,
            },
            core,
        }
    }
}

impl Front {
    // S at a level, held or not, and no frame in hand.
    pub(crate) fn without_frame(mut self, s: u8, held: u8) -> Front
        ensures { (k : Core) → whole result no_latch k
            ≡ without_frame s held (whole self no_latch k) }
    {
        self.s = s;
        self.held = held;
        self.taken = 0;
        self.bits = 0;
        self.partial = 0;
        self.code = 0;
        self.ran = 0;
        self.value = 0;
        self.out = 0;
        self.shown = 0;
        self.address = 0;
        self
    }

    // What Q shows.
    pub(crate) fn q(self) -> u8
        ensures { (l : Latch) (k : Core) → result ≡ level_number (q (whole self l k)) }
    {
        level_of(self.s, self.held, self.shown, self.out).number()
    }
}
