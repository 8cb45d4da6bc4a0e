// The frame model's device for C: power-up, a clock reading, and what a record says.
ghost use Rattle.std.specs.Prelude.{◌≡◌};
ghost use Rattle.codes.specs.Part.{part_of};
ghost use Rattle.chip.specs.Records.{own_part};
ghost use Rattle.chip.specs.Time.{clock_memory, clock_identification};
ghost use Rattle.chip.specs.Ranges.{in_ranges};
ghost use Rattle.bench.specs.Calls.{power_up_call, reading_call, in_ranges_call, status_call, lowest_protected_call};
ghost use Rattle.bench.specs.Calls.{bad_flag, protected_call, touched_call};

use crate::{CoreAnswer, Value};
use chip::Core;
use codes::{Refusal, size_of, wide};

// What a lock or a flag of 2 gets at power-up, with a memory of this length: 1 for another length than the part's, else
// 2.
pub(crate) fn bad_flag(part: u8, size: usize) -> u32
    ensures { result ≡ bad_flag (part_of part) size }
{
    if size == size_of(part) {
        return 2;
    }
    1
}

// Power-up: the blank cells of the memory are counted. Refusal 1 for a memory that is not as long as the part has it,
// then 2 for a part that is none, a lock or a flag that is not 0 or 1, then 6 for the cycle length; each leaves the
// M95512 with no cell counted.
pub fn cartvesper_power_up(
    part: u8,
    lock: u8,
    cycle: u32,
    srwd: u8,
    bp1: u8,
    bp0: u8,
    reading: u32,
    memory: &[u8],
) -> CoreAnswer
    ensures { result ≡ power_up_call part lock cycle srwd bp1 bp0 reading memory.now }
{
    if (lock <= 1) & (srwd <= 1) & (bp1 <= 1) & (bp0 <= 1) {
        return CoreAnswer::from(chip::power_up(
            part,
            lock == 1,
            cycle,
            srwd == 1,
            bp1 == 1,
            bp0 == 1,
            reading,
            memory,
        ));
    }
    CoreAnswer {
        number: bad_flag(part, memory.len()),
        core: Core::unpowered(),
    }
}

// A clock reading, which may end a cycle and store its page. Refusals 1, 2.
pub fn cartvesper_clock_reading(
    core: Core,
    reading: u32,
    memory: &mut [u8],
    identification: &mut [u8],
) -> CoreAnswer
    ensures value { result
        ≡ reading_call (own_part core) core reading memory.old identification.old }
    ensures memory_after { memory.new
        ≡ clock_memory (own_part core) reading core memory.old identification.old }
    ensures identification_after { identification.new
        ≡ clock_identification (own_part core) reading core memory.old identification.old }
{
    CoreAnswer::from(chip::clock_reading(core, reading, memory, identification))
}

// Value 1 for a record inside its ranges; refusal 2 for one outside them.
pub fn cartvesper_core_in_ranges(core: Core) -> Value
    ensures { result ≡ in_ranges_call (own_part core) core }
{
    if core.in_ranges() {
        return Value::from(Ok(1));
    }
    Value::from(Err(Refusal::RecordRange))
}

// The status byte. Refusal 2.
pub fn cartvesper_core_status(core: Core) -> Value
    ensures { result ≡ status_call (own_part core) core }
{
    if core.in_ranges() {
        return Value::from(Ok(wide(core.status())));
    }
    Value::from(Err(Refusal::RecordRange))
}

// The lowest protected address, the memory's size for none. Refusal 2.
pub fn cartvesper_core_lowest_protected(core: Core) -> Value
    ensures { result ≡ lowest_protected_call (own_part core) core }
{
    Value::from(core.protected_from())
}

// How many cells the running cycle will touch, 0 where no latched bytes wait. Refusal 2.
pub fn cartvesper_core_touched(core: Core) -> Value
    ensures { result ≡ touched_call (own_part core) (in_ranges (own_part core) core) core }
{
    Value::from(core.cells_touched())
}

// Value 1 where the address is protected. Refusals 2, then 7.
pub fn cartvesper_core_protected(core: Core, address: u32) -> Value
    ensures { result ≡ protected_call (own_part core) core address }
{
    Value::from(
        core.protection(address)
            .map(|protected| u32::from(protected)),
    )
}
