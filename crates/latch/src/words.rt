// Marks as words: a bit for each cell.
// A place stays a number below 64: a type for it would be made and taken apart at each use.
ghost use Rattle.std.specs.Prelude.{◌≡◌, ◌<◌, ◌-◌, ◌^◌, min};
ghost use Rattle.std.specs.Int.Bits.{bit_or};
ghost use Rattle.latch.specs.Words.{run_marks, run_word};

use crate::{FULL, WORD, WORDS};
use std::array;

// The word with one more bit set.
pub(crate) fn with_bit(word: u64, place: usize) -> u64
    requires { place < 64 }
    ensures { result ≡ bit_or word (2 ^ place) }
{
    word | 1 << place
}

// As many low bits as there are cells of the word below `end`, where `first` is its first cell.
fn low_ones(first: usize, end: usize) -> u64
    ensures { result ≡ 2 ^ min 64 (end - first) - 1 }
{
    let n = end.saturating_sub(first);
    if n < WORD { (1 << n) - 1 } else { FULL }
}

// The marks of the cells from `start` up to `end`, as far as they stand in the word whose first cell is `first`.
pub fn run_word(first: usize, start: usize, end: usize) -> u64
    ensures { result ≡ run_word first start end }
{
    if end <= start {
        return 0;
    }
    low_ones(first, end) - low_ones(first, start)
}

// The marks of a run of cells from `start` up to `end`, and of the cells up to `rest`.
pub fn run_marks(start: usize, end: usize, rest: usize) -> [u64; WORDS]
    ensures { result ≡ run_marks start end rest }
{
    array::from_fn(|k| run_word(k * WORD, start, end) | run_word(k * WORD, 0, rest))
}
