// The refusals of the driver, in their order.
ghost use Rattle.std.specs.Prelude.{◌≡◌, ◌+◌, nat_le};
ghost use Rattle.codes.specs.Part.{part_of};
ghost use Rattle.chip.specs.Records.{own_part};
ghost use Rattle.driver.specs.Answers.{polls_fit, drive_outcome};

use chip::Core;
use codes::{Refusal, longest_of, size_of};

// The run lies in the memory. The sum of address and length is never made before it is known to fit.
fn run_fits(part: u8, address: u64, len: usize) -> bool
    ensures { result ≡ nat_le (address + len) (part_of part).size }
{
    let size = size_of(part);
    len <= size && address <= (size - len) as u64
}

// The longest wait polls in every microsecond of the longest cycle, and once more.
fn polls_fit(part: u8, interval: u32, limit: u32) -> bool
    ensures { result ≡ polls_fit (part_of part) interval limit }
{
    let longest = longest_of(part);
    (1..=longest).contains(&interval) & (1..=longest + 1).contains(&limit)
}

// Refusals 1, 2, 7 and 8, in that order.
pub(crate) fn outcome(
    core: Core,
    size: usize,
    cells: usize,
    address: u64,
    len: usize,
    interval: u32,
    limit: u32,
) -> Result<(), Refusal>
    ensures { result ≡ drive_outcome (own_part core) core size cells address len interval limit }
{
    core.admitted(size, cells)?;
    if !run_fits(core.part, address, len) {
        return Err(Refusal::AddressRange);
    }
    if !polls_fit(core.part, interval, limit) {
        return Err(Refusal::PollRange);
    }
    Ok(())
}
