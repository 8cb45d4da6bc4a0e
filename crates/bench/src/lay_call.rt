// One page write laid over another, for C.
ghost use Rattle.std.specs.Prelude.{◌≡◌};
ghost use Rattle.bench.specs.Calls.{lay_call};

use crate::LatchAnswer;
use latch::Latch;

// The later page write laid over the earlier. Refusal 2 where either is outside its ranges, with the earlier one.
pub fn cartvesper_lay(earlier: Latch, later: Latch) -> LatchAnswer
    ensures { result ≡ lay_call earlier later }
{
    LatchAnswer::from(laying::lay(earlier, later))
}
