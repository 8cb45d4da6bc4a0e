// The cut.
ghost use Rattle.std.specs.Prelude.{◌≡◌};
ghost use Rattle.codes.specs.Refusals.{number};
ghost use Rattle.chip.specs.Records.{own_part};
ghost use Rattle.chip.specs.Time.{elapsed, reading_number};
ghost use Rattle.cuts.specs.Cuts.{cut_in, cut_memory, cut_identification};
ghost use Rattle.cuts.specs.Cuts.{cut_answer, cut_memory_answer, cut_identification_answer};

use crate::Choice;
use crate::down::cut_down;
use chip::{Answered, Core};
use codes::Refusal;

// The reading at which so much time has passed.
fn later(last: u32, left: u32) -> u32
    ensures { elapsed last result ≡ left }
{
    last.wrapping_add(left)
}

// A cut with no refusal: the step that both models take. A cycle that runs is over as if all its time had passed, but
// for the clock, which stays.
pub fn cut_core(core: Core, choice: Choice, memory: &mut [u8], identification: &mut [u8]) -> Core
    ensures value { result ≡ cut_in (own_part core) choice core memory.old }
    ensures memory_after { memory.new ≡ cut_memory (own_part core) choice core memory.old }
    ensures identification_after { identification.new
        ≡ cut_identification (own_part core) choice core identification.old }
{
    if core.running() {
        let over = later(core.last, core.left);
        let down = cut_down(core, choice);
        let next = down.timed(over, memory, identification);
        return next.with_time(core.last, 0);
    }
    core.without_cycle()
}

// A supply cut and the power's return, for every input. It is refused as a clock reading is: 1 for a memory or an
// identification page of another length, then 2 for a record outside its ranges, both with everything as it was.
pub fn cut(
    core: Core,
    choice: Choice,
    memory: &mut [u8],
    identification: &mut [u8],
) -> Answered<(), Refusal>
    ensures value { result
        ≡ cut_answer (own_part core) choice core memory.old identification.old }
    ensures as_number { number result.answer
        ≡ reading_number (own_part core) core memory.old identification.old }
    ensures memory_after { memory.new
        ≡ cut_memory_answer (own_part core) choice core memory.old identification.old }
    ensures identification_after { identification.new
        ≡ cut_identification_answer (own_part core) choice core memory.old identification.old }
{
    match core.admitted(memory.len(), identification.len()) {
        Ok(()) => Answered {
            answer: Ok(()),
            core: cut_core(core, choice, memory, identification),
        },
        Err(refusal) => Answered {
            answer: Err(refusal),
            core,
        },
    }
}
