// A number, written into lent bytes.
ghost use Rattle.std.specs.Prelude.{◌≡◌, ◌+◌, ◌≤◌, length};
ghost use Rattle.printing.specs.Digits.{digits, places, decimal};
ghost use Rattle.printing.specs.Put.{put, put_if_room, end_if_room};

use crate::put::has_bytes;

// How many digits n has, seven at most.
fn places_of(n: u64) -> usize
    ensures { (result ≡ places n) × (result ≤ 7) }
{
    match n {
        0..=9 => 1,
        10..=99 => 2,
        100..=999 => 3,
        1000..=9999 => 4,
        10000..=99999 => 5,
        100000..=999999 => 6,
        _ => 7,
    }
}

// The last k digits of n, the last of them first. By index: each stands by its place from the
// first, and is made from the last.
fn put_digits(out: &mut [u8], at: usize, k: usize, n: u64)
    requires { at + k ≤ length out.old }
    ensures { out.new ≡ put out.old at (digits k n) }
{
    let mut rest = n;
    for i in (0..k).rev() {
        out[at + i] = b'0' + (rest % 10) as u8;
        rest /= 10;
    }
}

// A number, the last seven digits of a longer one; it asks for seven bytes.
pub fn put_decimal(out: &mut [u8], at: usize, n: u64) -> usize
    ensures out_after { out.new ≡ put_if_room 7 out.old at (decimal n) }
    ensures value { (result ≡ end_if_room 7 out.old at (decimal n)) × (result ≤ at + 7) }
{
    if has_bytes(at, 7, out.len()) {
        let k = places_of(n);
        put_digits(out, at, k, n);
        return at + k;
    }
    at
}
