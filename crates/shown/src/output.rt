// The output bytes of a frame.
//
// The bounds of `from`, of the page and of the output stand in the contracts: a type with the part in it would be made
// by one function, and taken apart by the next.
ghost use Rattle.std.specs.Prelude.{◌≡◌, ◌+◌, ◌*◌, ◌-◌, ◌%◌, ◌<◌, ◌≤◌, eqb, leb, not, ◌&&◌, ◌++◌, length, get_or};
ghost use Rattle.std.specs.Prelude.{drop, replicate};
ghost use Rattle.laws.specs.Pick.{pick};
ghost use Rattle.laws.specs.Table.{table};
ghost use Rattle.codes.specs.Part.{part_of};
ghost use Rattle.codes.specs.Output.{outputs};
ghost use Rattle.codes.specs.declared.Instruction.TheVariants.{Read, Rdid};
ghost use Rattle.latch.specs.Identification.{identification_at};
ghost use Rattle.fields.specs.Counts.{longest_frame};
ghost use Rattle.shown.specs.Shown.{sights, byte_out, padded};
ghost use Rattle.shown.specs.Lengths.{lengths_fit, shown_in};

use codes::{Instruction, head_of, page_of, picks_lock, size_of};
use fields::{address_of, bits_fit, fill, instruction_of, length_fits};
use latch::cell_of;

// What there is to be seen beside the frame.
#[derive(Clone, Copy)]
struct Sights<'a> {
    status: u8,
    lock: u8,
    memory: &'a [u8],
    identification: &'a [u8],
}

// The cells from an address up, rolling from the last one to the first: at most two runs of them.
fn show_cells(memory: &[u8], from: usize, out: &mut [u8])
    requires from_in_bounds { from < length memory.now }
    requires out_in_bounds { length out.old ≤ length memory.now + 1 }
    ensures { out.new ≡ table (length out.old)
        (λ d. get_or memory.now ((from + d) % length memory.now) 0) }
{
    let n = out.len();
    let size = memory.len();
    let run = size - from;
    if n <= run {
        let end = from + n;
        out.copy_from_slice(&memory[from..end]);
    } else {
        let rest = n - run;
        out[0..run].copy_from_slice(&memory[from..size]);
        out[run..n].copy_from_slice(&memory[0..rest]);
    }
}

// The cells of the identification page from an address up, rolling within it. Stays a loop over
// the places: `iter_mut` with `enumerate` costs 1.1 times here.
fn show_page(part: u8, identification: &[u8], from: usize, out: &mut [u8])
    requires identification_len { length identification.now ≡ (part_of part).page }
    requires out_len_bound { length out.old ≤ (part_of part).size + 1 }
    ensures { out.new ≡ table (length out.old)
        (λ n. get_or identification.now ((from % (part_of part).page + n) % (part_of part).page) 0) }
{
    let start = cell_of(part, from);
    for i in 0..out.len() {
        out[i] = identification[cell_of(part, start + i)];
    }
}

// The data bytes of 83h: the lock again and again, or the page.
fn show_identification(part: u8, lock: u8, identification: &[u8], from: usize, out: &mut [u8])
    requires identification_len { length identification.now ≡ (part_of part).page }
    requires from_bound { from < (part_of part).size }
    requires out_len_bound { length out.old ≤ (part_of part).size + 1 }
    ensures { out.new ≡ table (length out.old)
        (identification_at (part_of part) lock identification.now from) }
{
    if picks_lock(from as u32) {
        fill(out, lock);
        return;
    }
    show_page(part, identification, from, out);
}

// RDSR: the status over every byte but the first.
fn show_status(status: u8, out: &mut [u8])
    ensures { out.new ≡ table (length out.old) (λ j. pick (leb 1 j) status 255) }
{
    fill(out, status);
    if 0 < out.len() {
        out[0] = 255;
    }
}

// Nothing is driven over the code and the address, the head, nor where a cycle ran. Whether data follows.
fn show_head(head: usize, ran: bool, out: &mut [u8]) -> bool
    ensures value { result ≡ leb head (length out.old) && not ran }
    ensures out_after { out.new ≡ pick result (replicate head 255 ++ drop head out.old)
        (replicate (length out.old) 255) }
{
    if ran || out.len() < head {
        fill(out, 255);
        return false;
    }
    fill(&mut out[0..head], 255);
    true
}

// READ: the cells after the address, or nothing where a cycle ran.
fn show_read(part: u8, ran: bool, memory: &[u8], from: usize, out: &mut [u8])
    requires memory_len { length memory.now ≡ (part_of part).size }
    requires from_bound { from < (part_of part).size }
    requires out_len_bound { length out.old ≤ longest_frame (part_of part) }
    ensures { out.new
        ≡ table (length out.old) (λ j. pick (outputs (part_of part) Read j ran)
        (get_or memory.now ((from + (j - ((part_of part).address_bytes + 1))) % (part_of part).size) 0) 255) }
{
    let n = out.len();
    let head = usize::from(head_of(part));
    if show_head(head, ran, out) {
        show_cells(memory, from, &mut out[head..n]);
    }
}

// 83h: the identification page or its lock after the address, or nothing where a cycle ran. Stays beside `show_read`:
// one function over a closure would need clauses on what the closure writes, and be no plainer.
fn show_identified(
    part: u8,
    ran: bool,
    lock: u8,
    identification: &[u8],
    from: usize,
    out: &mut [u8],
)
    requires identification_len { length identification.now ≡ (part_of part).page }
    requires from_bound { from < (part_of part).size }
    requires out_len_bound { length out.old ≤ longest_frame (part_of part) }
    ensures { out.new
        ≡ table (length out.old) (λ j. pick (outputs (part_of part) Rdid j ran)
        (identification_at (part_of part) lock identification.now from
        (j - ((part_of part).address_bytes + 1))) 255) }
{
    let n = out.len();
    let head = usize::from(head_of(part));
    if show_head(head, ran, out) {
        show_identification(part, lock, identification, from, &mut out[head..n]);
    }
}

// What stands on Q over each byte, undriven bits as 1.
fn show_bytes(part: u8, i: Instruction, ran: bool, seen: Sights<'_>, from: usize, out: &mut [u8])
    requires memory_len { (length seen.memory.now ≡ (part_of part).size) × (length seen.identification.now ≡ (part_of part).page) }
    requires from_bound { from < (part_of part).size }
    requires out_len_bound { length out.old ≤ longest_frame (part_of part) }
    ensures { out.new ≡ table (length out.old) (byte_out (part_of part) i ran
        (sights seen.entry.status seen.entry.lock seen.entry.memory.now seen.entry.identification.now) from) }
{
    match i {
        Instruction::Rdsr => show_status(seen.status, out),
        Instruction::Read => show_read(part, ran, seen.memory, from, out),
        Instruction::Rdid => {
            show_identified(part, ran, seen.lock, seen.identification, from, out);
        }
        Instruction::Wren
        | Instruction::Wrdi
        | Instruction::Wrsr
        | Instruction::Write
        | Instruction::Wrid
        | Instruction::Silence => fill(out, 255),
    }
}

// A byte with its low bits at 1, as many as are unused.
fn pad_byte(byte: u8, unused: u8) -> u8
    requires { unused < 8 }
    ensures { result ≡ padded unused byte }
{
    byte | ((1u8 << unused) - 1)
}

// Bits past the bit count are in the last byte.
fn pad(out: &mut [u8], unused: u8)
    requires { unused < 8 }
    ensures { out.new
        ≡ table (length out.old) (λ j. pick (eqb (j + 1) (length out.old))
        (padded unused (get_or out.old j 0)) (get_or out.old j 0)) }
{
    let n = out.len();
    if n == 0 {
        return;
    }
    let last = n - 1;
    out[last] = pad_byte(out[last], unused);
}

// Whether the lengths go together: of the memory, of the identification page, of a frame's bytes and bits, of the
// output.
fn lengths_fit(part: u8, size: usize, cells: usize, len: usize, bits: usize, room: usize) -> bool
    ensures { result ≡ lengths_fit (part_of part) size cells len bits room }
{
    (size == size_of(part))
        & (cells == page_of(part))
        & length_fits(part, len)
        & bits_fit(len, bits)
        & (room == len)
}

// The output of a frame where the lengths go together, else the output as it was.
pub fn show(
    part: u8,
    ran: bool,
    status: u8,
    lock: u8,
    memory: &[u8],
    identification: &[u8],
    bytes: &[u8],
    bits: usize,
    out: &mut [u8],
)
    ensures { out.new
        ≡ shown_in (part_of part) ran (sights status lock memory.now identification.now)
        bytes.now bits out.old }
{
    if lengths_fit(
        part,
        memory.len(),
        identification.len(),
        bytes.len(),
        bits,
        out.len(),
    ) {
        let seen = Sights {
            status,
            lock,
            memory,
            identification,
        };
        let from = address_of(part, bytes);
        show_bytes(part, instruction_of(part, bytes), ran, seen, from, out);
        pad(out, (8 * bytes.len() - bits) as u8);
    }
}
