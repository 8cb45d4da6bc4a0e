// A text written: a byte, the line of a record, the text of an image.
//
// That a memory has an image's cells, and a record at most 255, stands in the contracts. `export` is lent slices of any
// length, tests them (refusals 1 and 5) and hands them on as they are.
ghost use Rattle.std.specs.Prelude.{◌≡◌, ◌+◌, ◌*◌, ◌<◌, ◌≤◌, [], ◌∷◌, ◌++◌, length};
ghost use Rattle.codes.specs.Part.{m95512};
ghost use Rattle.printing.specs.Put.{put};
ghost use Rattle.intel_hex.specs.Writing.{digit_text, byte_text, bytes_text, total, sum_byte, line_of, record_line};
ghost use Rattle.intel_hex.specs.Writing.{records_text, image_records, image_room, image_text};

use crate::IMAGE_SIZE;
use crate::reading::END_LINE;
use printing::put_bytes;

// Cells of a record of an image, bytes of its line, and how many there are.
const CELLS: usize = 16;

const LINE: usize = 44;

const LINES: usize = IMAGE_SIZE / CELLS;

// Where the closing line stands.
const LAST: usize = LINE * LINES;

fn digit_text(value: u8) -> u8
    requires { value < 16 }
    ensures { result ≡ digit_text value }
{
    if value < 10 {
        b'0' + value
    } else {
        b'A' + (value - 10)
    }
}

// A byte as two digits.
fn put_byte(out: &mut [u8], at: usize, value: u8)
    requires { at + 2 ≤ length out.old }
    ensures { out.new ≡ put out.old at (byte_text value) }
{
    out[at] = digit_text(value / 16);
    out[at + 1] = digit_text(value % 16);
}

// Bytes one after another, two digits each.
fn put_values(out: &mut [u8], at: usize, bytes: &[u8])
    requires { at + 2 * length bytes.now ≤ length out.old }
    ensures { out.new ≡ put out.old at (bytes_text bytes.now) }
{
    for (i, byte) in bytes.iter().enumerate() {
        put_byte(out, at + 2 * i, *byte);
    }
}

fn sum_of(bytes: &[u8]) -> u32
    requires { length bytes.now ≤ 255 }
    ensures { (result ≡ total bytes.now) × (result ≤ 65025) }
{
    bytes.iter().map(|byte| u32::from(*byte)).sum()
}

fn sum_byte(sum: u32) -> u8
    ensures { result ≡ sum_byte sum }
{
    ((256 - sum % 256) % 256) as u8
}

// The line of some fields: four bytes of the head, and the data.
fn put_fields(out: &mut [u8], at: usize, head: &[u8], bytes: &[u8])
    requires { (at + 2 * length bytes.now + 12 ≤ length out.old) × (length bytes.now ≤ 255)
        × (length head.now ≡ 4) }
    ensures { out.new ≡ put out.old at (line_of (head.now ++ bytes.now)) }
{
    let end = at + 2 * bytes.len() + 9;
    let sum = sum_byte(sum_of(head) + sum_of(bytes));
    out[at] = b':';
    put_values(out, at + 1, head);
    put_values(out, at + 9, bytes);
    put_byte(out, end, sum);
    out[end + 2] = b'\n';
}

// The line of a record.
#[tactic(auto, unfolding(crate::specs::Writing::record_line))]
fn put_line(out: &mut [u8], at: usize, address: u32, bytes: &[u8])
    requires { (at + 2 * length bytes.now + 12 ≤ length out.old) × (length bytes.now ≤ 255)
        × (address < 65536) }
    ensures { out.new
        ≡ put out.old at (record_line (record { address = address; bytes = bytes.now })) }
{
    let head = [
        bytes.len() as u8,
        (address / 256) as u8,
        (address % 256) as u8,
        0,
    ];
    put_fields(out, at, &head, bytes);
}

// The lines of all cells, 16 to a line, in rising order.
fn put_lines(out: &mut [u8], memory: &[u8])
    requires { (length memory.now ≡ m95512.size) × (length out.old ≡ image_room m95512) }
    ensures { out.new
        ≡ put out.old 0 (records_text (image_records m95512 memory.now)) }
{
    for (k, cells) in memory.chunks_exact(CELLS).enumerate() {
        put_line(out, LINE * k, (CELLS * k) as u32, cells);
    }
}

// The text of an image.
pub(crate) fn put_image(out: &mut [u8], memory: &[u8])
    requires { (length memory.now ≡ m95512.size) × (length out.old ≡ image_room m95512) }
    ensures { out.new ≡ image_text m95512 memory.now }
{
    put_lines(out, memory);
    put_bytes(out, LAST, &END_LINE);
}
