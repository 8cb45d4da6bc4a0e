// Where protection starts (004, table 2).
ghost use Rattle.std.specs.Prelude.{◌≡◌};
ghost use Rattle.codes.specs.Part.{part_of};
ghost use Rattle.codes.specs.Protect.{lowest_protected};

use crate::sizes::size_of;

// The lowest protected address, the memory's size for none.
pub fn lowest_protected(part: u8, bp1: bool, bp0: bool) -> u32
    ensures { result ≡ lowest_protected (part_of part) bp1 bp0 }
{
    let size = size_of(part) as u32;
    if bp1 {
        if bp0 {
            return 0;
        }
        return size / 2;
    }
    if bp0 {
        return size / 4 * 3;
    }
    size
}
