// The public calls: a chunk of a text, and its end.
ghost use Rattle.std.specs.Prelude.{◌≡◌, ◌≤◌, length, Ok, Err};
ghost use Rattle.codes.specs.declared.Refusal.TheVariants.{MemoryLength, RecordRange, OutputLength};
ghost use Rattle.chip.specs.Lents.{lent};
ghost use Rattle.trace.specs.Chunks.{room, feed_choice, end_choice};
ghost use Rattle.trace.specs.Numbers.{feed_reply_number};
ghost use Rattle.trace.specs.Chunks.{feed_answer, feed_number, feed_memory, feed_identification};
ghost use Rattle.trace.specs.Chunks.{feed_output, end_answer, end_number, end_written};

use crate::Fed;
use crate::chunks::{has_room, refused, take_chunk, take_end};
use chip::lent_fits;
use codes::Refusal;
use player::Player;

// What refuses the end of a text, or so many bytes of it, where the output is `out`.
fn end_refused(player: Player, bytes: usize, out: &[u8]) -> Result<(), Refusal>
    ensures { result ≡ end_choice player (room bytes) (length out.now) (Err RecordRange)
        (Err OutputLength) (Ok tt) }
{
    if !player.in_ranges() {
        return Err(Refusal::RecordRange);
    }
    if !has_room(bytes, out.len()) {
        return Err(Refusal::OutputLength);
    }
    Ok(())
}

// What refuses a chunk.
fn chunk_refused(
    player: Player,
    memory: &[u8],
    identification: &[u8],
    text: &[u8],
    out: &[u8],
) -> Result<(), Refusal>
    ensures { result ≡ feed_choice player (lent memory.now identification.now)
        (room (length text.now)) (length out.now) (Err MemoryLength) (Err RecordRange)
        (Err OutputLength) (Ok tt) }
{
    if !lent_fits(player.device.core.part, memory.len(), identification.len()) {
        return Err(Refusal::MemoryLength);
    }
    end_refused(player, text.len(), out)
}

// A chunk of a text. Refusals 1 for a memory or an identification page of another length, 2 for a player outside its
// ranges, 5 for an output with fewer than 19 bytes and 10 for each byte of the chunk, all with everything as it was.
// Else all of the chunk is taken, and the output begins with the `written` bytes that it puts out.
pub fn feed(
    player: Player,
    memory: &mut [u8],
    identification: &mut [u8],
    text: &[u8],
    out: &mut [u8],
) -> Fed
    ensures value { result ≡ feed_answer player (lent memory.old identification.old)
        text.now out.old }
    ensures as_number { feed_reply_number result.answer ≡ feed_number player
        (lent memory.old identification.old) text.now out.old }
    ensures memory_after { memory.new ≡ feed_memory player
        (lent memory.old identification.old) text.now out.old }
    ensures identification_after { identification.new ≡ feed_identification player
        (lent memory.old identification.old) text.now out.old }
    ensures out_after { out.new ≡ feed_output player
        (lent memory.old identification.old) text.now out.old }
    ensures written_in_bounds { result.written ≤ length out.old }
{
    match chunk_refused(player, memory, identification, text, out) {
        Ok(()) => take_chunk(player, memory, identification, text, out),
        Err(refusal) => refused(player, refusal),
    }
}

// The end of a text: a line in hand has no LF, so it is bad. Refusals 2, and 5 for an output of fewer than 19 bytes,
// with everything as it was.
pub fn finish(player: Player, out: &mut [u8]) -> Fed
    ensures value { result ≡ end_answer player out.old }
    ensures as_number { feed_reply_number result.answer ≡ end_number player out.old }
    ensures out_after { out.new ≡ end_written player out.old }
    ensures written_in_bounds { result.written ≤ length out.old }
{
    match end_refused(player, 0, out) {
        Ok(()) => take_end(player, out),
        Err(refusal) => refused(player, refusal),
    }
}
