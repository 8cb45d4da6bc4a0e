// What runs of bytes are made with: a length cut to the most that there is room for, a slice filled.
ghost use Rattle.std.specs.Prelude.{◌≡◌, min, length, replicate};

// By name, as the contracts of those who call it speak of it.
pub fn at_most(most: usize, n: usize) -> usize
    ensures { result ≡ min most n }
{
    most.min(n)
}

// Every byte of the slice the same.
pub fn fill(out: &mut [u8], byte: u8)
    ensures { out.new ≡ replicate (length out.old) byte }
{
    out.fill(byte);
}
