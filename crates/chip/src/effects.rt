// What an executed instruction does to the record.
ghost use Rattle.std.specs.Prelude.{◌≡◌};
ghost use Rattle.laws.specs.Pick.{pick};
ghost use Rattle.codes.specs.Instructions.{picks_lock};
ghost use Rattle.chip.specs.Records.{status_waits, page_waits, identification_waits, lock_waits};
ghost use Rattle.chip.specs.Records.{with_wel, with_cycle};

use crate::{Core, Waiting};
use codes::picks_lock;
use latch::Latch;

impl Core {
    // WREN and WRDI.
    pub fn with_wel(mut self, wel: u8) -> Core
        ensures { result ≡ with_wel wel self }
    {
        self.wel = wel;
        self
    }

    fn with_cycle(mut self, waits: Waiting) -> Core
        ensures { result ≡ with_cycle waits self }
    {
        self.left = self.cycle;
        self.waits = waits;
        self
    }

    // WRSR: the cycle begins at whose end the status value shows.
    pub fn begin_status(self, value: u8) -> Core
        ensures { result ≡ with_cycle (status_waits value) self }
    {
        self.with_cycle(Waiting::for_status(value))
    }

    // WRITE: the cycle begins at whose end the latched page is stored.
    pub fn begin_page(self, page: u32, latch: Latch) -> Core
        ensures { result ≡ with_cycle (page_waits page latch) self }
    {
        self.with_cycle(Waiting::for_page(page, latch))
    }

    // 82h: the cycle begins at whose end the lock is set or the identification page is stored, as its address picks.
    pub fn begin_identification(self, address: u32, latch: Latch) -> Core
        ensures { result
            ≡ with_cycle (pick (picks_lock address) lock_waits (identification_waits latch)) self }
    {
        if picks_lock(address) {
            return self.with_cycle(Waiting::for_lock());
        }
        self.with_cycle(Waiting::for_identification(latch))
    }
}
