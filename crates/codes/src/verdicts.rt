// Is a frame executed at its deselect: the tests of the instruction's row, one after the other.
ghost use Rattle.std.specs.Prelude.{◌≡◌, not};
ghost use Rattle.codes.specs.Part.{part_of};
ghost use Rattle.codes.specs.Instructions.{count_fits, guarded};
ghost use Rattle.codes.specs.Verdicts.{let_through, verdict, verdict_by, is_executed};

use crate::instructions::row;
use crate::{Count, Deselect, Guard, Instruction, Row, Verdict};

impl Count {
    // The count of bits at deselect is not the instruction's.
    fn stops(self, bits: usize) -> bool
        ensures { result ≡ not (count_fits self bits) }
    {
        match self {
            Count::Exactly(count) => bits != count,
            Count::AnyBits => false,
            Count::WholeBytes(least) => !((least <= bits) & (bits % 8 == 0)),
        }
    }
}

impl Guard {
    // What stops a WRSR, and what stops a write of cells.
    fn stops(self, locked: bool, protected: bool) -> bool
        ensures { result ≡ guarded self locked protected }
    {
        match self {
            Guard::Nothing => false,
            Guard::StatusLock => locked,
            Guard::CellLock => protected,
        }
    }
}

impl Row {
    // A frame that no cycle, WEL, count or protection stopped.
    fn let_through(self, held: bool) -> Verdict
        ensures { result ≡ let_through self held }
    {
        if held & !self.hold {
            return Verdict::OnHold;
        }
        if self.known {
            return Verdict::Executed;
        }
        Verdict::UnknownCode
    }

    // The first test that fails: cycle, WEL, count, protection, hold, unknown code. Fewer than eight bits are no
    // instruction.
    fn judge(self, at: Deselect) -> Verdict
        ensures { result ≡ verdict_by self at.bits at.ran at.wel at.locked at.protected at.held }
    {
        if at.bits < 8 {
            return Verdict::WrongCount;
        }
        if self.idle & at.ran {
            return Verdict::CycleRan;
        }
        if self.wel & !at.wel {
            return Verdict::WelOff;
        }
        if self.count.stops(at.bits) {
            return Verdict::WrongCount;
        }
        if self.guard.stops(at.locked, at.protected) {
            return Verdict::Guarded;
        }
        self.let_through(at.held)
    }
}

// What a deselect decides of a frame with this instruction, its address and its data byte.
pub fn judge(part: u8, i: Instruction, address: u32, value: u8, at: Deselect) -> Verdict
    ensures { result
        ≡ verdict (part_of part) i address value at.bits at.ran at.wel at.locked at.protected at.held }
{
    row(part, i, address, value).judge(at)
}

impl Verdict {
    // Every other verdict leaves the record as it was.
    pub fn is_executed(self) -> bool
        ensures { result ≡ is_executed self }
    {
        self == Verdict::Executed
    }
}
