// The device record, made of another.
ghost use Rattle.std.specs.Prelude.{◌≡◌, not};
ghost use Rattle.codes.specs.Status.{bit};
ghost use Rattle.pins.specs.Devices.{resting, with_held, q};

use crate::{Device, Pins};
use chip::Core;
use edges::{Frame, Level, bit, level_of};

impl Device {
    // Not selected, not held, an empty frame; S, W and HOLD high, C and D low.
    pub fn resting(core: Core) -> Device
        ensures { result ≡ resting core }
    {
        Device {
            pins: Pins {
                s: 1,
                c: 0,
                d: 0,
                w: 1,
                hold: 1,
            },
            held: 0,
            frame: Frame::none(),
            core,
        }
    }

    pub(crate) fn with_held(mut self, held: bool) -> Device
        ensures { result ≡ with_held held self }
    {
        let held = bit(held);
        self.held = held;
        self
    }

    // What Q shows.
    pub(crate) fn shows(self) -> Level
        ensures { result ≡ q self }
    {
        level_of(self.pins.s, self.held, self.frame.shown, self.frame.out)
    }
}
