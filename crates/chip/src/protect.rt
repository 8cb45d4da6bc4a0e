// Where protection starts, and is an address protected: the questions to a record.
ghost use Rattle.codes.specs.Status.{bit};
ghost use Rattle.codes.specs.Refusals.{number, value_of, value_by};
ghost use Rattle.std.specs.Prelude.{◌≡◌};
ghost use Rattle.chip.specs.Records.{own_part};
ghost use Rattle.chip.specs.Questions.{lowest, protects, barred, protected_from};
ghost use Rattle.chip.specs.Questions.{lowest_number, lowest_value, protection};
ghost use Rattle.chip.specs.Questions.{question_number, question_value};

use crate::Core;
use codes::{Instruction, Refusal, lowest_protected, size_of};

impl Core {
    // The lowest protected address, the memory's size for none.
    pub fn lowest(self) -> u32
        ensures { result ≡ lowest (own_part self) self }
    {
        lowest_protected(self.part, self.bp1 == 1, self.bp0 == 1)
    }

    // The lowest protected address is at most this one.
    pub fn protects(self, address: u32) -> bool
        ensures { result ≡ protects (own_part self) self address }
    {
        self.lowest() <= address
    }

    // The cells that an instruction would write are protected: a WRITE's by its address, 82h's by the lock or BP 11.
    pub fn barred(self, i: Instruction, address: u32) -> bool
        ensures { result ≡ barred (own_part self) self i address }
    {
        match i {
            Instruction::Write => self.protects(address),
            Instruction::Wrid => (self.lock == 1) | (self.bp1 == 1) & (self.bp0 == 1),
            _ => false,
        }
    }

    // Where protection starts: 2 for a record outside its ranges.
    pub fn protected_from(self) -> Result<u32, Refusal>
        ensures value { result ≡ protected_from (own_part self) self }
        ensures as_number { number result ≡ lowest_number (own_part self) self }
        ensures as_value { value_of result ≡ lowest_value (own_part self) self }
    {
        // Not by `checked`: it takes a copy of the record.
        if self.in_ranges() {
            return Ok(self.lowest());
        }
        Err(Refusal::RecordRange)
    }

    // Whether one address is protected: 2 for a record outside its ranges, 7 for an address that the memory lacks.
    pub fn protection(self, address: u32) -> Result<bool, Refusal>
        ensures value { result ≡ protection (own_part self) self address }
        ensures as_number { number result ≡ question_number (own_part self) self address }
        ensures as_value { (value_by bit) result ≡ question_value (own_part self) self address }
    {
        if !self.in_ranges() {
            return Err(Refusal::RecordRange);
        }
        if size_of(self.part) <= address as usize {
            return Err(Refusal::AddressRange);
        }
        Ok(self.protects(address))
    }
}
