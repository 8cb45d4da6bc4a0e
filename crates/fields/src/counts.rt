// How long a frame may be, and whether a bit count fits its bytes.
ghost use Rattle.std.specs.Prelude.{◌≡◌, leb};
ghost use Rattle.codes.specs.Part.{part_of};
ghost use Rattle.fields.specs.Counts.{bits_fit, longest_frame};

use codes::size_of;

// As many bytes are a frame: at most the memory's size, and four more.
pub fn length_fits(part: u8, len: usize) -> bool
    ensures { result ≡ leb len (longest_frame (part_of part)) }
{
    len <= size_of(part) + 4
}

// A bit count that fits: as many bytes as it begins, so 0 for an empty slice, else from 8·length − 7 to 8·length.
pub fn bits_fit(len: usize, bits: usize) -> bool
    ensures { result ≡ bits_fit len bits }
{
    bits.div_ceil(8) == len
}
