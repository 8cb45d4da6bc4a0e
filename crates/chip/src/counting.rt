// How many cells the running cycle will touch: the question to a record.
ghost use Rattle.codes.specs.Refusals.{number, value_of};
ghost use Rattle.std.specs.Prelude.{◌≡◌};
ghost use Rattle.laws.specs.Count.{count};
ghost use Rattle.codes.specs.Part.{room};
ghost use Rattle.latch.specs.Latches.{marked};
ghost use Rattle.chip.specs.Records.{own_part};
ghost use Rattle.chip.specs.Ranges.{in_ranges};
ghost use Rattle.chip.specs.Touched.{cells_marked, cells_touched, touched_answer, touched_choice};

use crate::Core;
use codes::Refusal;

impl Core {
    // The ones of the words that wait, which are the marked cells; of any record.
    pub fn touched(self) -> u32
        ensures { (result ≡ cells_touched self) × (result ≡ count (marked self.waits.latch) room) }
    {
        self.waits.latch.touched()
    }

    // How many cells the running cycle will touch, 0 where no latched bytes wait: 2 for a record outside its ranges.
    pub fn cells_touched(self) -> Result<u32, Refusal>
        ensures value { result ≡ touched_answer (in_ranges (own_part self) self) self }
        ensures as_number { number result ≡ touched_choice (in_ranges (own_part self) self) 2 0 }
        ensures as_value { value_of result
            ≡ touched_choice (in_ranges (own_part self) self) 0 (cells_marked (own_part self) self) }
    {
        if self.in_ranges() {
            return Ok(self.touched());
        }
        Err(Refusal::RecordRange)
    }
}
