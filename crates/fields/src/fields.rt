// The bytes of a frame: the code, the address, the data. A byte that the frame lacks reads 0.
ghost use Rattle.std.specs.Prelude.{◌≡◌, ◌+◌, ◌*◌, ◌%◌, ◌≤◌, ◌<◌, length, get_or};
ghost use Rattle.laws.specs.Spliced.{spliced};
ghost use Rattle.codes.specs.Part.{part_of, room_cells};
ghost use Rattle.latch.specs.Latches.{no_latch};
ghost use Rattle.fields.specs.Bytes.{instruction, address, latched_from, latched_up, written};

use codes::{ADDRESS_BYTES, Instruction, address_bytes_of, head_of, page_of, size_of};
use latch::{Latch, ROOM, cell_of, run_marks};

pub fn byte_at(bytes: &[u8], i: usize) -> u8
    ensures { result ≡ get_or bytes.now i 0 }
{
    bytes.get(i).copied().unwrap_or(0)
}

pub fn instruction_of(part: u8, bytes: &[u8]) -> Instruction
    ensures { result ≡ instruction (part_of part) bytes.now }
{
    codes::decode(part, byte_at(bytes, 0))
}

fn joined(high: u8, low: u8) -> usize
    ensures { result ≡ high * 256 + low }
{
    usize::from(u16::from_be_bytes([high, low]))
}

// The address, high byte first.
pub fn address_of(part: u8, bytes: &[u8]) -> usize
    ensures value { result ≡ address (part_of part) bytes.now }
    ensures upper_bound { (result < (part_of part).size) × (result < room_cells) }
{
    let two = joined(byte_at(bytes, 1), byte_at(bytes, 2));
    if address_bytes_of(part) == ADDRESS_BYTES {
        return two;
    }
    (two * 256 + usize::from(byte_at(bytes, 3))) & (size_of(part) - 1)
}

// A run of bytes latched: into the cells from `start` on.
fn latch_run(cells: &mut [u8], start: usize, run: &[u8])
    requires { start + length run.now ≤ length cells.old }
    ensures { cells.new
        ≡ spliced cells.old run.now start (length run.now) }
{
    let end = start + run.len();
    cells[start..end].copy_from_slice(run);
}

// Bytes latched from an address up and round within its page. Only the last page of them stays, in at most two runs: up
// to the page's end, and from its first cell.
fn latch_all(part: u8, address: usize, values: &[u8]) -> Latch
    ensures { result
        ≡ latched_from (part_of part) (address % (part_of part).page) values.now no_latch }
{
    let mut cells = [0u8; ROOM];
    let page = page_of(part);
    let n = values.len();
    let kept = n.min(page);
    let skip = n - kept;
    let start = cell_of(part, cell_of(part, address) + skip);
    let first = kept.min(page - start);
    let turn = skip + first;
    latch_run(&mut cells, start, &values[skip..turn]);
    latch_run(&mut cells, 0, &values[turn..n]);
    Latch {
        bytes: cells,
        marks: run_marks(start, start + first, n - turn),
    }
}

// Bytes latched from an address up to the end of its page, in one run; those past it are not. Not by `latch_all`, for
// the driver's speed: it makes two runs.
pub fn latch_part(part: u8, address: usize, values: &[u8]) -> Latch
    ensures { result ≡ latched_up (part_of part) address values.now }
{
    let mut cells = [0u8; ROOM];
    let start = cell_of(part, address);
    let n = values.len().min(page_of(part) - start);
    let end = start + n;
    latch_run(&mut cells, start, &values[..n]);
    Latch {
        bytes: cells,
        marks: run_marks(start, end, 0),
    }
}

// The page write of a WRITE or 82h frame: each data byte into its cell, from the start address up and round within the
// page.
pub fn latch_of(part: u8, bytes: &[u8]) -> Latch
    ensures { result ≡ written (part_of part) bytes.now }
{
    let Some(data) = bytes.get(usize::from(head_of(part))..) else {
        return Latch::none();
    };
    latch_all(part, address_of(part, bytes), data)
}
