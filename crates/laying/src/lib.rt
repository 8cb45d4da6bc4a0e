// One page write laid over another, the later winning: what two retries in a row leave.
//
// Public call, for every input: lay. over is an inner call: total, and exactly its definition.
#![tactic(auto)]

ghost use Rattle.std.specs.Prelude.{◌≡◌};
ghost use Rattle.codes.specs.Refusals.{number};
ghost use Rattle.laying.specs.Laying.{lay_number, laid_over, over};

use codes::{M95M01, Refusal};
use latch::Latch;
use std::array;

// What laying hands back: the page write, or the earlier one as it was given. The latch stands beside the outcome,
// since a refusal hands one back too (lay, clause value).
#[derive(Clone, Copy)]
pub struct Laid {
    pub outcome: Result<(), Refusal>,
    pub latch: Latch,
}

// The later's marked bytes over the earlier's bytes, and the marks of both. A page write has room for a page of the
// M95M01, so the later is stored in page 0 of the bytes.
pub fn over(earlier: Latch, later: Latch) -> Latch
    ensures { result ≡ over earlier later }
{
    let mut bytes = earlier.bytes;
    later.store(M95M01, 0, &mut bytes);
    Latch {
        bytes,
        marks: array::from_fn(|k| earlier.marks[k] | later.marks[k]),
    }
}

// A later page write laid over an earlier one, for any two: 2 where either is outside its ranges, with the earlier one
// as it was. It takes no part, so the test is that of all the room, which is the M95M01's page.
pub fn lay(earlier: Latch, later: Latch) -> Laid
    ensures value { result ≡ laid_over earlier later }
    ensures as_number { number result.outcome ≡ lay_number earlier later }
{
    if !earlier.fits(M95M01, true) || !later.fits(M95M01, true) {
        return Laid {
            outcome: Err(Refusal::RecordRange),
            latch: earlier,
        };
    }
    Laid {
        outcome: Ok(()),
        latch: over(earlier, later),
    }
}
