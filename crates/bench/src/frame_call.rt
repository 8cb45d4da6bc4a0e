// The frame model's frame for C.
ghost use Rattle.std.specs.Prelude.{◌≡◌, length};
ghost use Rattle.chip.specs.Records.{own_part};
ghost use Rattle.bench.specs.Calls.{frame_call, frame_call_output};

use crate::FrameAnswer;
use crate::device_calls::bad_level;
use chip::Core;

// A whole frame, with the level of W. Refusals 1, 2, 3, 4, 5; a level that is not 0 or 1 gets 2 too.
pub fn cartvesper_frame(
    core: Core,
    memory: &[u8],
    identification: &[u8],
    w: u8,
    bytes: &[u8],
    bits: usize,
    out: &mut [u8],
) -> FrameAnswer
    ensures value { result
        ≡ frame_call (own_part core) core memory.now identification.now w bytes.now bits
        (length out.old) }
    ensures out_after { out.new
        ≡ frame_call_output (own_part core) core memory.now identification.now w bytes.now
        bits out.old }
{
    if w <= 1 {
        return FrameAnswer::from(frames::frame(
            core,
            memory,
            identification,
            w == 1,
            bytes,
            bits,
            out,
        ));
    }
    FrameAnswer {
        number: bad_level(core.part, memory.len(), identification.len()),
        undriven: 0,
        core,
    }
}
