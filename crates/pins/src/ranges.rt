// Is a device inside its ranges. Each part of the test has a definition of its own.
ghost use Rattle.std.specs.Prelude.{◌≡◌, ◌-◌, ◌<◌};
ghost use Rattle.pins.specs.Devices.{device_part};
ghost use Rattle.pins.specs.Ranges.{pins_fit, held_fits, empty_fits, ran_fits, device_fits};

use crate::{Device, Pins};

impl Pins {
    fn fit(self) -> bool
        ensures { result ≡ pins_fit self }
    {
        (self.s <= 1) & (self.c <= 1) & (self.d <= 1) & (self.w <= 1) & (self.hold <= 1)
    }

    fn held_fits(self, held: u8) -> bool
        ensures { result ≡ held_fits self held }
    {
        if self.s == 1 {
            return held == 0;
        }
        if self.c == 1 {
            return held <= 1;
        }
        held as u32 + self.hold as u32 == 1
    }
}

impl Device {
    fn empty_fits(self) -> bool
        ensures { result ≡ empty_fits self }
    {
        (self.pins.s != 1) | (self.frame.taken == 0) & (self.frame.bits == 0)
    }

    fn ran_fits(self) -> bool
        ensures { result ≡ ran_fits self }
    {
        (self.frame.taken == 0) | !self.core.running() | (self.frame.ran == 1)
    }

    // The public test, for every record.
    pub fn in_ranges(self) -> bool
        ensures { result ≡ device_fits (device_part self) self }
    {
        let pins = self.pins;
        let frame = self.frame;
        let core = self.core;
        pins.fit()
            & pins.held_fits(self.held)
            & frame.fits(self.core.part)
            & self.empty_fits()
            & self.ran_fits()
            & core.in_ranges()
    }
}
