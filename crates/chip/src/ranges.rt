// Is a record inside its ranges: the test that refusal 2 rests on. Each part of it has a definition of its own.
ghost use Rattle.std.specs.Prelude.{◌≡◌, ◌==◌};
ghost use Rattle.codes.specs.Part.{part_of};
ghost use Rattle.chip.specs.Records.{own_part};
ghost use Rattle.chip.specs.Ranges.{flags_fit, cycle_fits, time_fits, tied, value_fits, page_fits, wait_fits};
ghost use Rattle.chip.specs.Ranges.{in_ranges};
ghost use Rattle.chip.specs.Ranges.{blank_fits, waits_one};

use crate::{Core, Kind, Waiting};
use codes::{identified, is_part, longest_of, pages_of, size_of, wrdi_in_cycle};

// The cycle length, 1 to the part's longest.
pub fn cycle_fits(part: u8, cycle: u32) -> bool
    ensures { result ≡ cycle_fits (part_of part) cycle }
{
    (1 <= cycle) & (cycle <= longest_of(part))
}

impl Waiting {
    fn value_fits(self) -> bool
        ensures { result ≡ value_fits self }
    {
        if self.has(Kind::Status) {
            return codes::writable(self.status) == self.status;
        }
        self.status == 0
    }

    fn page_fits(self, part: u8) -> bool
        ensures { result ≡ page_fits (part_of part) self }
    {
        if self.has(Kind::Page) {
            return self.page < pages_of(part);
        }
        self.page == 0
    }

    fn fits(self, part: u8) -> bool
        ensures { result ≡ wait_fits (part_of part) self }
    {
        let latches = self.has(Kind::Page) | self.has(Kind::Identification);
        self.value_fits() & self.page_fits(part) & self.latch.fits(part, latches)
    }

    // One thing waits: the identification page and the lock only of a part that has them.
    fn one_waits(self, part: u8) -> bool
        ensures { result ≡ waits_one (part_of part) self }
    {
        self.has(Kind::Status)
            | self.has(Kind::Page)
            | identified(part) & (self.has(Kind::Identification) | self.has(Kind::Lock))
    }
}

impl Core {
    fn flags_fit(self) -> bool
        ensures { result ≡ flags_fit self }
    {
        is_part(self.part)
            & (self.lock <= 1)
            & (self.srwd <= 1)
            & (self.bp1 <= 1)
            & (self.bp0 <= 1)
            & (self.wel <= 1)
    }

    fn time_fits(self) -> bool
        ensures { result ≡ time_fits (own_part self) self }
    {
        cycle_fits(self.part, self.cycle) & (self.left <= self.cycle)
    }

    fn tied(self) -> bool
        ensures { result ≡ tied (own_part self) self }
    {
        let waits = self.waits;
        if 0 < self.left {
            return (wrdi_in_cycle(self.part) | (self.wel == 1)) & waits.one_waits(self.part);
        }
        waits.has(Kind::Nothing)
    }

    fn blank_fits(self) -> bool
        ensures { result ≡ blank_fits (own_part self) self }
    {
        self.blank as usize <= size_of(self.part)
    }

    // The public test, for every record.
    pub fn in_ranges(self) -> bool
        ensures { result ≡ in_ranges (own_part self) self }
    {
        let waits = self.waits;
        self.flags_fit()
            & self.time_fits()
            & self.tied()
            & waits.fits(self.part)
            & self.blank_fits()
    }
}
