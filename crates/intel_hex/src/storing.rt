// The records of a good text stored into the memory. That the memory has an image's cells stands in the contracts:
// `import` is lent a slice of any length, tests it (refusal 1) and hands it on as it is.
ghost use Rattle.std.specs.Prelude.{◌≡◌, true, ◌+◌, ◌*◌, ◌<◌, ◌≤◌, length, drop};
ghost use Rattle.laws.specs.Each.{each};
ghost use Rattle.laws.specs.Table.{table};
ghost use Rattle.codes.specs.Part.{m95512};
ghost use Rattle.intel_hex.specs.Reading.{line_byte, is_byte, record_at, line_length, says_record, parted};
ghost use Rattle.intel_hex.specs.Reading.{laid_record, laid_records};

use crate::reading::Digits;

// The data bytes of the line at the front of a text, one for each cell.
fn fill(cells: &mut [u8], text: &[u8], digits: &Digits)
    requires { (2 * length cells.old + 12 ≤ length text.now)
        × (each (is_byte text.now) (length cells.old + 5) ≡ true) }
    ensures { cells.new
        ≡ table (length cells.old) (λ i. line_byte text.now (i + 4)) }
{
    for (i, cell) in cells.iter_mut().enumerate() {
        *cell = digits.line_byte(text, i + 4) as u8;
    }
}

// The record at the front of a text, which is good: its cells alone are lent on. Handed back is its line's length.
fn store_record(memory: &mut [u8], text: &[u8], digits: &Digits) -> usize
    requires { (length memory.old ≡ m95512.size) × (says_record m95512 text.now ≡ true) }
    ensures value { result ≡ line_length text.now }
    ensures memory_after { memory.new ≡ laid_record (record_at text.now) memory.old }
{
    let n = digits.line_byte(text, 0) as usize;
    let start = digits.address_at(text) as usize;
    let end = start + n;
    fill(&mut memory[start..end], text, digits);
    2 * n + 12
}

// The records of a text one after another, where they end at an index.
pub(crate) fn store(memory: &mut [u8], text: &[u8], end: usize, digits: &Digits)
    requires { (length memory.old ≡ m95512.size) × (end ≤ length text.now)
        × (drop end text.now ≡ (parted m95512 text.now).rest) }
    ensures { memory.new
        ≡ laid_records (parted m95512 text.now).records memory.old }
{
    // Stays a while: only the line itself says where the next one starts.
    let mut at: usize = 0;
    while at < end {
        at += store_record(memory, &text[at..], digits);
    }
}
