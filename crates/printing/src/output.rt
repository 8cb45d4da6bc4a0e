// The lines of a trace's output, written into lent bytes.
ghost use Rattle.std.specs.Prelude.{◌≡◌, ◌+◌, ◌*◌, ◌≤◌, length, leb};
ghost use Rattle.printing.specs.Printing.{header, glyph, good_line, bad_line, printed};
ghost use Rattle.printing.specs.Put.{put, put_if_room, end_if_room};

use crate::digits::put_decimal;
use crate::put::{has_bytes, put_bytes};

// The header; it asks for seven bytes.
#[tactic(auto, unfolding(crate::specs::Printing::header))]
pub fn put_header(out: &mut [u8], at: usize) -> usize
    ensures out_after { out.new ≡ put_if_room 7 out.old at header }
    ensures value { result ≡ end_if_room 7 out.old at header }
{
    put_bytes(out, at, b"line\tq\n")
}

// The bad line; it asks for twelve bytes.
pub fn put_bad(out: &mut [u8], at: usize, n: u32) -> usize
    ensures out_after { out.new ≡ put_if_room 12 out.old at (bad_line n) }
    ensures value { (result ≡ end_if_room 12 out.old at (bad_line n)) × (result ≤ at + 12) }
{
    if has_bytes(at, 12, out.len()) {
        let end = put_decimal(out, at, u64::from(n));
        return put_bytes(out, end, b"\tbad\n");
    }
    at
}

// 0, 1 or Z, by the number that a list of events gives Q.
fn glyph_of(q: u8) -> u8
    ensures { result ≡ glyph q }
{
    match q {
        0 => b'0',
        1 => b'1',
        _ => b'Z',
    }
}

// A good line: its number, a tab and Q.
fn put_line(out: &mut [u8], at: usize, n: u64, q: u8) -> usize
    requires { at + 10 ≤ length out.old }
    ensures out_after { out.new ≡ put out.old at (good_line n q) }
    ensures value { (result ≡ at + length (good_line n q)) × (result ≤ at + 10) }
{
    let end = put_decimal(out, at, n);
    put_bytes(out, end, &[b'\t', glyph_of(q), b'\n'])
}

// Whether so many bytes have room for `count` lines, of ten bytes each, from an index on.
fn has_lines(at: usize, count: usize, bytes: usize) -> bool
    ensures { result ≡ leb (at + 10 * count) bytes }
{
    at <= bytes && count <= (bytes - at) / 10
}

// The lines one after another, where there is room.
fn put_lines(out: &mut [u8], at: usize, n: u32, qs: &[u8]) -> usize
    requires { at + 10 * length qs.now ≤ length out.old }
    ensures out_after { out.new ≡ put out.old at (printed n qs.now) }
    ensures value { (result ≡ at + length (printed n qs.now)) × (result ≤ at + 10 * length qs.now) }
{
    let mut end = at;
    for (i, q) in qs.iter().enumerate() {
        end = put_line(out, end, u64::from(n) + i as u64, *q);
    }
    end
}

// A line for each Q, from number n on; they ask for ten bytes each.
pub fn print(out: &mut [u8], at: usize, n: u32, qs: &[u8]) -> usize
    ensures out_after { out.new
        ≡ put_if_room (10 * length qs.now) out.old at (printed n qs.now) }
    ensures value { (result ≡ end_if_room (10 * length qs.now) out.old at (printed n qs.now))
        × (result ≤ at + 10 * length qs.now) }
{
    if has_lines(at, qs.len(), out.len()) {
        return put_lines(out, at, n, qs);
    }
    at
}
