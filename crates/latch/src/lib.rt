// A page write: up to a page of latched bytes with a mark on each addressed one, its ranges, and the page that it is
// stored in.
//
// Every public function is an inner call of the models: total, and exactly its definition.
#![tactic(auto)]

mod lay;
mod pages;
mod ranges;
mod words;

pub use pages::{cell_of, latch_byte, next_cell};
pub use words::{run_marks, run_word};

// Cells that a latch has room for: the largest page. On a part with smaller pages the cells past its page stay unmarked
// and read 0.
pub const ROOM: usize = codes::LARGE_PAGE;

// Words of marks, a bit for each cell.
pub const WORDS: usize = ROOM / WORD;

// Cells to a word, and the word with every mark.
pub const WORD: usize = 64;

pub(crate) const FULL: u64 = 0xffff_ffff_ffff_ffff;

// Up to a page of latched bytes, and a mark on each addressed one: cell i has bit i % 64 of word i / 64. Unmarked bytes
// read 0. Two arrays side by side: the record is C's too.
#[repr(C)]
#[derive(Clone, Copy)]
pub struct Latch {
    pub bytes: [u8; ROOM],
    pub marks: [u64; WORDS],
}
