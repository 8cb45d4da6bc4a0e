// How many leading bits of a frame are undriven.
ghost use Rattle.std.specs.Prelude.{◌≡◌, ◌+◌, ◌*◌, min};
ghost use Rattle.laws.specs.Pick.{pick};
ghost use Rattle.codes.specs.Part.{part_of};
ghost use Rattle.shown.specs.Shown.{undriven};

use codes::{Instruction, head_of};
use fields::at_most;

// How many leading bits of the count are undriven.
pub fn undriven(part: u8, i: Instruction, ran: bool, bits: usize) -> usize
    ensures { result ≡ undriven (part_of part) i ran bits }
{
    match i {
        Instruction::Rdsr => at_most(8, bits),
        Instruction::Read | Instruction::Rdid => read_undriven(part, ran, bits),
        Instruction::Wren
        | Instruction::Wrdi
        | Instruction::Wrsr
        | Instruction::Write
        | Instruction::Wrid
        | Instruction::Silence => bits,
    }
}

fn read_undriven(part: u8, ran: bool, bits: usize) -> usize
    ensures { result ≡ pick ran bits (min (8 * ((part_of part).address_bytes + 1)) bits) }
{
    if ran {
        return bits;
    }
    at_most(8 * usize::from(head_of(part)), bits)
}
