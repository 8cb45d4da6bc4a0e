// Power-up, and the device as delivered.
ghost use Rattle.codes.specs.declared.Refusal.TheVariants.{CycleLength, MemoryLength, RecordRange};
ghost use Rattle.std.specs.Prelude.{◌≡◌, Err, Ok};
ghost use Rattle.chip.specs.Records.{idle};
ghost use Rattle.chip.specs.Power.{quiet, delivered, unpowered, not_powered, powered_up, power_up_number};
ghost use Rattle.chip.specs.Power.{power_up_choice};
ghost use Rattle.codes.specs.Refusals.{number, no_refusal};

use crate::ranges::cycle_fits;
use crate::{Answered, Core, Waiting};
use blanks::blanks;
use codes::{M95512, Refusal, is_part, longest_of, size_of};

impl Core {
    // WEL 0, no cycle, and the given part, lock, status bits, cycle length, clock reading and number of blank cells.
    fn idle(
        part: u8,
        lock: bool,
        srwd: bool,
        bp1: bool,
        bp0: bool,
        cycle: u32,
        reading: u32,
        blank: u32,
    ) -> Core
        ensures { result ≡ idle part lock srwd bp1 bp0 cycle reading blank }
    {
        Core {
            part,
            lock: u8::from(lock),
            srwd: u8::from(srwd),
            bp1: u8::from(bp1),
            bp0: u8::from(bp0),
            wel: 0,
            cycle,
            left: 0,
            last: reading,
            blank,
            waits: Waiting::nothing(),
        }
    }

    // Lock and status bits 0, the part's longest cycle, reading 0, and so many blank cells.
    fn quiet(part: u8, blank: u32) -> Core
        ensures { result ≡ quiet part blank }
    {
        Core::idle(part, false, false, false, false, longest_of(part), 0, blank)
    }

    // What a refused power-up leaves: the M95512, no cell counted.
    pub fn unpowered() -> Core
        ensures { result ≡ unpowered }
    {
        Core::quiet(M95512, 0)
    }

    // A part as delivered, every cell of its memory blank. A number that is no part gives the M95512.
    pub fn delivered(part: u8) -> Core
        ensures { result ≡ delivered part }
    {
        if is_part(part) {
            return Core::quiet(part, size_of(part) as u32);
        }
        Core::quiet(M95512, size_of(M95512) as u32)
    }
}

// Power-up refused: no cell counted, whatever was given.
fn not_powered(refusal: Refusal) -> Answered<(), Refusal>
    ensures { result ≡ not_powered refusal }
{
    Answered {
        answer: Err(refusal),
        core: Core::unpowered(),
    }
}

// Power-up, for every input, by parameters as C hands them over: the blank cells of the memory are counted. 1 for a
// memory that is not as long as the part has it, then 2 for a part that is none, then 6 for a cycle length that is not
// 1 to the longest; each leaves the M95512 with no cell counted.
pub fn power_up(
    part: u8,
    lock: bool,
    cycle: u32,
    srwd: bool,
    bp1: bool,
    bp0: bool,
    reading: u32,
    memory: &[u8],
) -> Answered<(), Refusal>
    ensures value { result ≡ powered_up part lock cycle srwd bp1 bp0 reading memory.now }
    ensures as_number { number result.answer ≡ power_up_number part cycle memory.now }
{
    if memory.len() != size_of(part) {
        return not_powered(Refusal::MemoryLength);
    }
    if !is_part(part) {
        return not_powered(Refusal::RecordRange);
    }
    if !cycle_fits(part, cycle) {
        return not_powered(Refusal::CycleLength);
    }
    Answered {
        answer: Ok(()),
        core: Core::idle(part, lock, srwd, bp1, bp0, cycle, reading, blanks(memory)),
    }
}
