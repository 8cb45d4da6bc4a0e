// What waits for the end of a write cycle.
ghost use Rattle.std.specs.Prelude.{◌≡◌, ◌==◌};
ghost use Rattle.chip.specs.Records.{kind_number, nothing, status_waits, page_waits, identification_waits, lock_waits};

use crate::{Kind, Waiting};
use codes::writable;
use latch::Latch;

impl Waiting {
    // Whether this is what waits.
    pub fn has(&self, kind: Kind) -> bool
        ensures { result ≡ (self.now.kind == kind_number kind) }
    {
        self.kind == kind as u8
    }

    // What waits where nothing does: every field is 0.
    pub fn nothing() -> Waiting
        ensures { result ≡ nothing }
    {
        Waiting {
            kind: Kind::Nothing as u8,
            status: 0,
            page: 0,
            latch: Latch::none(),
        }
    }

    // Only the writable bits of a status value wait.
    pub(crate) fn for_status(value: u8) -> Waiting
        ensures { result ≡ status_waits value }
    {
        Waiting {
            kind: Kind::Status as u8,
            status: writable(value),
            ..Waiting::nothing()
        }
    }

    pub(crate) fn for_page(page: u32, latch: Latch) -> Waiting
        ensures { result ≡ page_waits page latch }
    {
        Waiting {
            kind: Kind::Page as u8,
            status: 0,
            page,
            latch,
        }
    }

    pub(crate) fn for_identification(latch: Latch) -> Waiting
        ensures { result ≡ identification_waits latch }
    {
        Waiting {
            kind: Kind::Identification as u8,
            status: 0,
            page: 0,
            latch,
        }
    }

    pub(crate) fn for_lock() -> Waiting
        ensures { result ≡ lock_waits }
    {
        Waiting {
            kind: Kind::Lock as u8,
            ..Waiting::nothing()
        }
    }
}
