// Frames that are deselected in Hold. The frame model knows no Hold, so it is asked for the frame as if unheld: a WRITE
// must leave the same, any other frame nothing.
use crate::made::{Head, one_byte};
use crate::run::{Run, count};
use chip::{Answered, Core};
use codes::{Refusal, WRITE};

// What the frame leaves: where it is dropped, the record from before.
pub fn left_by(
    framed: Answered<usize, Refusal>,
    before: Core,
    dropped: bool,
) -> Answered<usize, Refusal> {
    if dropped {
        return Answered {
            answer: framed.answer,
            core: before,
        };
    }
    framed
}

// A WRITE of one byte, of one and a bit more, and of two bytes.
fn count_bits(part: u8, bits: usize, run: &mut Run) {
    let one = one_byte(part);
    if bits == one {
        count(&mut run.held.one);
    }
    if bits == one + 1 {
        count(&mut run.held.odd);
    }
    if bits == one + 8 {
        count(&mut run.held.two);
    }
}

fn count_conditions(before: Core, address: u32, run: &mut Run) {
    if before.wel == 0 {
        count(&mut run.held.no_wel);
    }
    if before.protects(address) {
        count(&mut run.held.protected);
    }
}

// A frame deselected in Hold; what it begins is the frame model's.
pub fn count_held(before: Core, after: Core, head: Head, run: &mut Run) {
    count(&mut run.held.all);
    if head.code != WRITE {
        return;
    }
    count(&mut run.held.writes);
    count_bits(before.part, head.bits, run);
    count_conditions(before, head.address, run);
    if before.left == 0 && after.left > 0 {
        count(&mut run.held.begun);
    }
}
