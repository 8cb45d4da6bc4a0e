// What the status byte that a poll saw says: a cycle runs, and where protection starts.
ghost use Rattle.std.specs.Prelude.{◌≡◌, ◌+◌, ◌≤◌, nat_lt};
ghost use Rattle.codes.specs.Part.{part_of};
ghost use Rattle.codes.specs.Status.{on, bit_of};
ghost use Rattle.sequence.specs.Sequence.{lowest_shown};

use codes::{bp0_of, bp1_of, lowest_protected};

// WIP.
pub(crate) fn wip(status: u8) -> bool
    ensures { result ≡ on (bit_of 0 status) }
{
    status & 1 == 1
}

// So many cells from an address on, some of them protected by BP1 and BP0.
pub(crate) fn block_touched(part: u8, status: u8, address: u64, len: usize) -> bool
    requires { address + len ≤ (part_of part).size }
    ensures { result ≡ nat_lt (lowest_shown (part_of part) status) (address + len) }
{
    let lowest = lowest_protected(part, bp1_of(status) == 1, bp0_of(status) == 1);
    u64::from(lowest) < address + len as u64
}
