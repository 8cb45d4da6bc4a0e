// The places of an address's bytes.
ghost use Rattle.std.specs.Prelude.{◌≡◌, ◌-◌, ◌^◌, ◌<◌, ◌≤◌};

// 256 to the number of address bytes still to come.
pub(crate) fn place(left: u8) -> u64
    requires { left ≤ 4 }
    ensures value { result ≡ 256 ^ left }
    ensures result_nonzero { (0 < result) × (result ≤ 256 ^ 4) }
{
    1 << 8 * left
}

// How many are still to come.
pub(crate) fn less(bytes: u8, taken: u8) -> u8
    ensures value { result ≡ bytes - taken }
    ensures upper_bound { result ≤ bytes }
{
    bytes.saturating_sub(taken)
}
