// A page write: bytes latched, its ranges, the cells that it touches, and the page that it is stored in.
ghost use Rattle.std.specs.Prelude.{◌≡◌, ◌%◌, ◌<◌, set};
ghost use Rattle.laws.specs.Count.{count};
ghost use Rattle.laws.specs.Marks.{mark_set};
ghost use Rattle.codes.specs.Part.{part_of, room};
ghost use Rattle.latch.specs.Latches.{latch_fits, latched, marked, next_cell, no_latch, stored, touched};

use crate::lay::store_page;
use crate::ranges::cells_fit;
use crate::words::with_bit;
use crate::{Latch, ROOM, WORD, WORDS};
use codes::page_of;

impl Latch {
    // No byte latched.
    pub fn none() -> Latch
        ensures { result ≡ no_latch }
    {
        Latch {
            bytes: [0; ROOM],
            marks: [0; WORDS],
        }
    }

    // One more byte latched, for the cell of its page that an address is in.
    pub fn with(mut self, part: u8, address: usize, byte: u8) -> Latch
        ensures { result ≡ latched (address % (part_of part).page) byte self }
    {
        latch_byte(part, &mut self.bytes, &mut self.marks, address, byte);
        self
    }

    // How many cells a cycle will touch: the ones of all words, which are the marked cells.
    pub fn touched(self) -> u32
        ensures { (result ≡ touched self) × (result ≡ count (marked self) room) }
    {
        self.marks.iter().map(|word| word.count_ones()).sum()
    }

    // Unmarked bytes read 0; there are marks only where there may be, and in the part's page.
    pub fn fits(self, part: u8, may: bool) -> bool
        ensures { result ≡ latch_fits (part_of part) may self }
    {
        cells_fit(part, may, &self)
    }

    // Lays the write over page number `page` of the memory: that page's bytes alone are lent on. A page that the
    // memory lacks is not stored.
    pub fn store(self, part: u8, page: u32, memory: &mut [u8])
        ensures { memory.new ≡ stored (part_of part) page self memory.old }
    {
        let cells = page_of(part);
        let start = page as usize * cells;
        let end = start + cells;
        if end <= memory.len() {
            store_page(&mut memory[start..end], &self);
        }
    }
}

// The cell of its page that an address is in. A page is a power of two, so a mask finds it.
pub fn cell_of(part: u8, address: usize) -> usize
    ensures value { result ≡ address % (part_of part).page }
    ensures upper_bound { (result < (part_of part).page) × (result < room) }
{
    address & (page_of(part) - 1)
}

// Two arrays and no latch: a list of events holds them apart.
//
// One more byte latched where it stands, for the cell of its page that an address is in; the latest byte for a cell
// wins.
pub fn latch_byte(
    part: u8,
    bytes: &mut [u8; ROOM],
    marks: &mut [u64; WORDS],
    address: usize,
    byte: u8,
)
    ensures bytes_after { bytes.new ≡ set bytes.old (address % (part_of part).page) byte }
    ensures marks_after { marks.new ≡ mark_set (address % (part_of part).page) marks.old }
{
    let cell = cell_of(part, address);
    let word = cell / WORD;
    bytes[cell] = byte;
    marks[word] = with_bit(marks[word], cell % WORD);
}

// The cell of its page that comes after an address: from the last one back to the first.
pub fn next_cell(part: u8, address: usize) -> usize
    ensures value { result ≡ next_cell (part_of part) address }
    ensures upper_bound { (result < (part_of part).page) × (result < room) }
{
    cell_of(part, cell_of(part, address) + 1)
}
