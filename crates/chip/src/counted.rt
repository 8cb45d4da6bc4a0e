// The number of blank cells: how the end of a page cycle moves it, and how it is counted afresh.
ghost use Rattle.std.specs.Prelude.{◌≡◌};
ghost use Rattle.chip.specs.Records.{own_part, waits_page};
ghost use Rattle.chip.specs.Blanks.{counted};
ghost use Rattle.chip.specs.Time.{ended_blank, ended_cells};

use crate::{Core, Kind};
use blanks::{blanks, store_counting};
use codes::size_of;

impl Core {
    // The end of a page cycle: the latched bytes go into the memory, and the answer is the number of blank cells then.
    // Only the page's cells are looked at. Where no page waits nothing moves.
    pub(crate) fn store_page(self, memory: &mut [u8]) -> u32
        ensures value { result ≡ ended_blank (own_part self) self memory.old }
        ensures memory_after { memory.new ≡ ended_cells waits_page (own_part self) self memory.old }
    {
        let page = self.waits.page;
        let latch = self.waits.latch;
        if self.waits.kind == Kind::Page as u8 {
            return store_counting(self.part, self.blank, page, latch, memory);
        }
        self.blank
    }

    // The number counted afresh, of a memory of the part's length; with any other the record stays.
    pub fn counted(self, memory: &[u8]) -> Core
        ensures { result ≡ counted (own_part self) memory.now self }
    {
        if memory.len() == size_of(self.part) {
            return self.with_blank(blanks(memory));
        }
        self
    }
}
