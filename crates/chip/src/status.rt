// The status byte of a record, and the byte that shows its lock.
ghost use Rattle.std.specs.Prelude.{◌≡◌};
ghost use Rattle.chip.specs.Records.{running, status, lock_byte};

use crate::Core;
use codes::status_byte;

impl Core {
    // WIP: a cycle runs exactly when time is left.
    pub fn running(self) -> bool
        ensures { result ≡ running self }
    {
        0 < self.left
    }

    // The status byte of any record.
    pub fn status(self) -> u8
        ensures { result ≡ status self }
    {
        status_byte(
            self.srwd == 1,
            self.bp1 == 1,
            self.bp0 == 1,
            self.wel == 1,
            0 < self.left,
        )
    }

    // The byte that shows the lock: low bit, others 0.
    pub fn lock_byte(self) -> u8
        ensures { result ≡ lock_byte self }
    {
        u8::from(self.lock == 1)
    }
}
