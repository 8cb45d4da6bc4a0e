// Bytes, written into lent ones.
ghost use Rattle.std.specs.Prelude.{◌≡◌, ◌+◌, ◌≤◌, length, leb};
ghost use Rattle.printing.specs.Put.{put, put_if_room, end_if_room};

// Whether so many bytes have `count` of them from an index on. The sum, which may not fit, is not made.
pub(crate) fn has_bytes(at: usize, count: usize, bytes: usize) -> bool
    ensures { result ≡ leb (at + count) bytes }
{
    at <= bytes && count <= bytes - at
}

// Bytes as they are; they ask for their own number.
pub fn put_bytes(out: &mut [u8], at: usize, bytes: &[u8]) -> usize
    ensures out_after { out.new
        ≡ put_if_room (length bytes.now) out.old at bytes.now }
    ensures value { result ≡ end_if_room (length bytes.now) out.old at bytes.now }
{
    if has_bytes(at, bytes.len(), out.len()) {
        let end = at + bytes.len();
        out[at..end].copy_from_slice(bytes);
        return end;
    }
    at
}
