// The driver for C: a run of bytes written as page writes, and what it says of that.
ghost use Rattle.std.specs.Prelude.{◌≡◌};
ghost use Rattle.chip.specs.Records.{own_part};
ghost use Rattle.driver.specs.Answers.{driven_memory, driven_identification};
ghost use Rattle.bench.specs.Calls.{write_call};

use crate::DriverAnswer;
use chip::Core;

// A run of bytes written as page writes. Refusals 1, 2, 7, 8; else 0, 9 or 13, with pages done and frames sent.
pub fn cartvesper_write(
    core: Core,
    memory: &mut [u8],
    identification: &mut [u8],
    address: u64,
    bytes: &[u8],
    interval: u32,
    limit: u32,
) -> DriverAnswer
    ensures value { result
        ≡ write_call (own_part core) core memory.old identification.old address
        bytes.now interval limit }
    ensures memory_after { memory.new
        ≡ driven_memory (own_part core) core memory.old identification.old address
        bytes.now interval limit }
    ensures identification_after { identification.new
        ≡ driven_identification (own_part core) core memory.old identification.old address
        bytes.now interval limit }
{
    DriverAnswer::from(driver::write(
        core,
        memory,
        identification,
        address,
        bytes,
        interval,
        limit,
    ))
}
