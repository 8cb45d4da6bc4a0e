// The test of a latch's ranges: it runs at every public call. Most often nothing is marked, and the test is one loop.
// Else it goes by the words of marks: one with no mark asks for bytes of 0, one with every mark for nothing; any other
// goes cell by cell, without a branch in its loop.
ghost use Rattle.std.specs.Prelude.{◌≡◌, ◌+◌, ◌≤◌, ◌<◌, eqb, get_or, length};
ghost use Rattle.laws.specs.Pick.{pick};
ghost use Rattle.laws.specs.Bits.{bit_on};
ghost use Rattle.laws.specs.Each.{each};
ghost use Rattle.codes.specs.Part.{part_of, room, room_words};
ghost use Rattle.latch.specs.Latches.{latch_fits};
ghost use Rattle.latch.specs.Words.{word_fits, words_fit};

use crate::{FULL, Latch, ROOM, WORD, WORDS};
use codes::page_of;

// Past the part's page nothing may be marked.
pub(crate) fn cells_fit(part: u8, may: bool, latch: &Latch) -> bool
    ensures { result ≡ latch_fits (part_of part) may latch.now }
{
    if latch.marks == [0; WORDS] {
        return zeros(&latch.bytes);
    }
    let words = page_of(part) / WORD;
    words_fit(may, latch, 0, words) & words_fit(false, latch, words, WORDS)
}

// The cells of the words from one up to another.
fn words_fit(may: bool, latch: &Latch, from: usize, to: usize) -> bool
    requires { (from ≤ to) × (to ≤ room_words) }
    ensures { result ≡ words_fit may latch.now.bytes latch.now.marks from to }
{
    (from..to).all(|k| word_fits(may, &latch.bytes, k * WORD, latch.marks[k]))
}

// The cells of one word of marks.
fn word_fits(may: bool, bytes: &[u8; ROOM], start: usize, word: u64) -> bool
    requires { start + 64 ≤ room }
    ensures { result ≡ word_fits may bytes.now start word 64 }
{
    if word == FULL {
        return may;
    }
    if word == 0 {
        let end = start + WORD;
        return zeros(&bytes[start..end]);
    }
    bits_fit(may, bytes, start, word)
}

// Every cell is 0. Without a branch in its loop: the iterator's `all` costs 20 times here.
fn zeros(cells: &[u8]) -> bool
    ensures { result ≡ each (λ i. eqb (get_or cells.now i 0) 0) (length cells.now) }
{
    let mut zero = true;
    for byte in cells {
        zero = zero & (*byte == 0);
    }
    zero
}

// Bit by bit. Stays a loop over the places: one over the slice of 64 cells costs 1.2 times here, `all` 4 times.
fn bits_fit(may: bool, bytes: &[u8; ROOM], start: usize, word: u64) -> bool
    requires { start + 64 ≤ room }
    ensures { result ≡ word_fits may bytes.now start word 64 }
{
    let mut fits = true;
    for i in 0..WORD {
        fits = fits & cell_fits(may, word, i, bytes[start + i]);
    }
    fits
}

// A mark where there may be marks, or no mark and the byte 0.
fn cell_fits(may: bool, word: u64, place: usize, byte: u8) -> bool
    requires { place < 64 }
    ensures { result ≡ pick (bit_on word place) may (eqb byte 0) }
{
    let mark = word >> place & 1 == 1;
    mark & may | !mark & (byte == 0)
}
