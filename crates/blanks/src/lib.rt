// The number of blank cells of a memory: the scan, and how a page write moves it by its page alone.
//
// Inner calls only, each total and exactly its definition: blanks, store_counting.
#![tactic(auto)]

ghost use Rattle.std.specs.Prelude.{◌≡◌, ◌+◌, ◌-◌, ◌≤◌, length};
ghost use Rattle.codes.specs.Part.{part_of, room_cells};
ghost use Rattle.latch.specs.Latches.{stored};
ghost use Rattle.blanks.specs.Blanks.{blanks, blanks_in, blanks_of, held_within, recounted};

use codes::{LARGE_SIZE, page_of, size_of};
use latch::Latch;

// So many cells are counted in a byte.
const FEW: usize = 128;

// The blank cells among a few. A byte counts them, so that the processor looks at many at once.
fn few(cells: &[u8]) -> u8
    requires { length cells.now ≤ 128 }
    ensures { result ≡ blanks cells.now }
{
    cells.iter().map(|cell| u8::from(*cell == 255)).sum()
}

// The blank cells among all that are lent. In a byte for each few: a sum of one number of 32 bits for each cell takes 3
// times as long.
fn scan(cells: &[u8]) -> u32
    requires { length cells.now ≤ room_cells }
    ensures { result ≡ blanks cells.now }
{
    let mut n = 0;
    for row in cells.chunks(FEW) {
        n += u32::from(few(row));
    }
    n
}

// The blank cells of a memory; none of one that is larger than any part's.
pub fn blanks(memory: &[u8]) -> u32
    ensures { result ≡ blanks_of memory.now }
{
    if memory.len() <= LARGE_SIZE {
        return scan(memory);
    }
    0
}

// The blank cells of one page; none of a page that the memory lacks.
fn blanks_in(part: u8, page: u32, memory: &[u8]) -> u32
    ensures { result ≡ blanks_in (part_of part) page memory.now }
{
    let cells = page_of(part);
    let start = page as usize * cells;
    let end = start + cells;
    match memory.get(start..end) {
        Some(cells) => scan(cells),
        None => 0,
    }
}

// The number once so many blank cells came and so many went: not below 0, and at most the memory's size.
fn held_within(part: u8, blank: u32, came: u32, went: u32) -> u32
    ensures { result ≡ held_within (part_of part).size (blank + came - went) }
{
    let rest = (u64::from(blank) + u64::from(came)).saturating_sub(u64::from(went));
    rest.min(size_of(part) as u64) as u32
}

// Stores a page write, and answers the number of blank cells then: it was `blank` before. Only the page's cells are
// looked at.
pub fn store_counting(part: u8, blank: u32, page: u32, latch: Latch, memory: &mut [u8]) -> u32
    ensures value { result ≡ recounted (part_of part) blank memory.old
        (stored (part_of part) page latch memory.old) }
    ensures memory_after { memory.new ≡ stored (part_of part) page latch memory.old }
{
    let before = blanks_in(part, page, memory);
    latch.store(part, page, memory);
    let after = blanks_in(part, page, memory);
    held_within(part, blank, after, before)
}
