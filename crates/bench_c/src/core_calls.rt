// The frame model's device for C: power-up, a clock reading, and what a record says.
ghost use Rattle.std.specs.Prelude.{◌≡◌};
ghost use Rattle.chip.specs.Records.{own_part};
ghost use Rattle.chip.specs.Time.{clock_memory, clock_identification};
ghost use Rattle.chip.specs.Ranges.{in_ranges};
ghost use Rattle.bench.specs.Calls.{power_up_call, reading_call, in_ranges_call, status_call, lowest_protected_call};
ghost use Rattle.bench.specs.Calls.{protected_call, touched_call};

use bench::{CoreAnswer, Value};
use chip::Core;

// Power-up: the blank cells of the memory are counted. Refusal 1 for a memory that is not as long as the part has it,
// then 2 for a part that is none, a lock or a flag that is not 0 or 1, then 6 for the cycle length; each leaves the
// M95512 with no cell counted.
#[unsafe(no_mangle)]
pub extern "C" fn cartvesper_power_up(
    part: u8,
    lock: u8,
    cycle: u32,
    srwd: u8,
    bp1: u8,
    bp0: u8,
    reading: u32,
    memory: &[u8],
) -> CoreAnswer
    ensures { result ≡ power_up_call part lock cycle srwd bp1 bp0 reading memory.now }
{
    bench::cartvesper_power_up(part, lock, cycle, srwd, bp1, bp0, reading, memory)
}

// A clock reading, which may end a cycle and store its page. Refusals 1, 2.
#[unsafe(no_mangle)]
pub extern "C" fn cartvesper_clock_reading(
    core: Core,
    reading: u32,
    memory: &mut [u8],
    identification: &mut [u8],
) -> CoreAnswer
    ensures value { result
        ≡ reading_call (own_part core) core reading memory.old identification.old }
    ensures memory_after { memory.new
        ≡ clock_memory (own_part core) reading core memory.old identification.old }
    ensures identification_after { identification.new
        ≡ clock_identification (own_part core) reading core memory.old identification.old }
{
    bench::cartvesper_clock_reading(core, reading, memory, identification)
}

// Value 1 for a record inside its ranges; refusal 2 for one outside them.
#[unsafe(no_mangle)]
pub extern "C" fn cartvesper_core_in_ranges(core: Core) -> Value
    ensures { result ≡ in_ranges_call (own_part core) core }
{
    bench::cartvesper_core_in_ranges(core)
}

// The status byte. Refusal 2.
#[unsafe(no_mangle)]
pub extern "C" fn cartvesper_core_status(core: Core) -> Value
    ensures { result ≡ status_call (own_part core) core }
{
    bench::cartvesper_core_status(core)
}

// The lowest protected address, the memory's size for none. Refusal 2.
#[unsafe(no_mangle)]
pub extern "C" fn cartvesper_core_lowest_protected(core: Core) -> Value
    ensures { result ≡ lowest_protected_call (own_part core) core }
{
    bench::cartvesper_core_lowest_protected(core)
}

// How many cells the running cycle will touch, 0 where no latched bytes wait. Refusal 2.
#[unsafe(no_mangle)]
pub extern "C" fn cartvesper_core_touched(core: Core) -> Value
    ensures { result ≡ touched_call (own_part core) (in_ranges (own_part core) core) core }
{
    bench::cartvesper_core_touched(core)
}

// Value 1 where the address is protected. Refusals 2, then 7.
#[unsafe(no_mangle)]
pub extern "C" fn cartvesper_core_protected(core: Core, address: u32) -> Value
    ensures { result ≡ protected_call (own_part core) core address }
{
    bench::cartvesper_core_protected(core, address)
}
