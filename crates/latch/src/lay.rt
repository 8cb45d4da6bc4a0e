// Laying a latch over lent cells, a word of marks after the other. A word with every mark is copied; any other goes
// cell by cell.
ghost use Rattle.std.specs.Prelude.{◌≡◌, ◌+◌, ◌%◌, ◌≤◌, ◌<◌, length};
ghost use Rattle.laws.specs.Pick.{pick};
ghost use Rattle.laws.specs.Bits.{bit_on};
ghost use Rattle.codes.specs.Part.{room};
ghost use Rattle.latch.specs.Latches.{laid};
ghost use Rattle.latch.specs.Words.{full, word_laid};

use crate::{FULL, Latch, ROOM, WORD};

// The marked bytes go into the page, as long as it is; its other cells stay. By index: the contract of
// `lay_word` is over the whole page, of which it changes the 64 cells from an index on.
pub(crate) fn store_page(page: &mut [u8], latch: &Latch)
    requires { (length page.old ≤ room) × (length page.old % 64 ≡ 0) }
    ensures { page.new ≡ laid (length page.old) latch.now page.old }
{
    for k in 0..page.len() / WORD {
        lay_word(page, &latch.bytes, k * WORD, latch.marks[k]);
    }
}

// The cells of one word of marks.
fn lay_word(page: &mut [u8], bytes: &[u8; ROOM], start: usize, word: u64)
    requires { (length page.old ≤ room) × (start + 64 ≤ length page.old) }
    ensures { page.new ≡ word_laid bytes.now start word 64 page.old }
{
    if word == FULL {
        copy_word(page, bytes, start);
        return;
    }
    lay_bits(page, bytes, start, word);
}

// Where every cell is marked. Stays a loop: `copy_from_slice` of the 64 cells costs 1.17 times here.
fn copy_word(page: &mut [u8], bytes: &[u8; ROOM], start: usize)
    requires { (length page.old ≤ room) × (start + 64 ≤ length page.old) }
    ensures { page.new ≡ word_laid bytes.now start full 64 page.old }
{
    for i in 0..WORD {
        page[start + i] = bytes[start + i];
    }
}

// Bit by bit. By index: the place says which bit of the word and which cell of two arrays. Half of the contracts here
// ask for a page within the room: a page is a lent slice, whose length no type holds.
fn lay_bits(page: &mut [u8], bytes: &[u8; ROOM], start: usize, word: u64)
    requires { (length page.old ≤ room) × (start + 64 ≤ length page.old) }
    ensures { page.new ≡ word_laid bytes.now start word 64 page.old }
{
    for i in 0..WORD {
        page[start + i] = laid_byte(word, i, bytes[start + i], page[start + i]);
    }
}

fn laid_byte(word: u64, place: usize, byte: u8, old: u8) -> u8
    requires { place < 64 }
    ensures { result ≡ pick (bit_on word place) byte old }
{
    if word >> place & 1 == 1 { byte } else { old }
}
