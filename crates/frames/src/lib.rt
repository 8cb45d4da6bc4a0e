// The frame model of the three parts: it takes whole frames.
//
// Public calls, each for every input: frame, and chip's power_up and clock_reading, whose record this model holds.
// Inner calls, total, and exactly their definitions: wren, write.
//
// A frame's bytes and its bit count are two parameters, here and above: they are handed over apart, and need not fit
// one another (refusal 4).
#![tactic(auto)]

ghost use Rattle.codes.specs.Refusals.{number, value_of};
ghost use Rattle.std.specs.Prelude.{◌≡◌, length};
ghost use Rattle.chip.specs.Records.{own_part};
ghost use Rattle.frames.specs.Answers.{framed, framed_output, frame_number, frame_undriven};

use chip::{Answered, Core};
use codes::Refusal;

mod executed;
mod refused;
mod sent;

pub use sent::{wren, write};

// A frame for every record, memory, identification page, level of W, slice, bit count and output. Refusals 1, 2, 3, 4
// and 5 in that order leave the record and the output as they were; else the output has Q as it stands just before each
// counted edge, undriven bits and bits past the count at 1.
pub fn frame(
    core: Core,
    memory: &[u8],
    identification: &[u8],
    w: bool,
    bytes: &[u8],
    bits: usize,
    out: &mut [u8],
) -> Answered<usize, Refusal>
    ensures value { result
        ≡ framed (own_part core) core memory.now identification.now w bytes.now bits
        (length out.old) }
    ensures as_number { number result.answer
        ≡ frame_number (own_part core) core (length memory.now) (length identification.now)
        (length bytes.now) bits (length out.old) }
    ensures as_undriven { value_of result.answer
        ≡ frame_undriven (own_part core) core (length memory.now) (length identification.now)
        bytes.now bits (length out.old) }
    ensures out_after { out.new
        ≡ framed_output (own_part core) core memory.now identification.now bytes.now bits
        out.old }
{
    if let Err(refusal) = refused::outcome(
        core,
        memory.len(),
        identification.len(),
        bytes.len(),
        bits,
        out.len(),
    ) {
        return Answered {
            answer: Err(refusal),
            core,
        };
    }
    let ran = core.running();
    let i = fields::instruction_of(core.part, bytes);
    shown::show(
        core.part,
        ran,
        core.status(),
        core.lock_byte(),
        memory,
        identification,
        bytes,
        bits,
        out,
    );
    Answered {
        answer: Ok(shown::undriven(core.part, i, ran, bits)),
        core: executed::after(core, w, bytes, bits),
    }
}
