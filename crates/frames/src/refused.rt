// The refusals of a frame, in their order.
ghost use Rattle.std.specs.Prelude.{◌≡◌};
ghost use Rattle.chip.specs.Records.{own_part};
ghost use Rattle.frames.specs.Answers.{frame_outcome};

use chip::Core;
use codes::Refusal;
use fields::{bits_fit, length_fits};

pub(crate) fn outcome(
    core: Core,
    size: usize,
    cells: usize,
    len: usize,
    bits: usize,
    room: usize,
) -> Result<(), Refusal>
    ensures { result ≡ frame_outcome (own_part core) core size cells len bits room }
{
    core.admitted(size, cells)?;
    if !length_fits(core.part, len) {
        return Err(Refusal::FrameLength);
    }
    if !bits_fit(len, bits) {
        return Err(Refusal::BitCount);
    }
    if room != len {
        return Err(Refusal::OutputLength);
    }
    Ok(())
}
