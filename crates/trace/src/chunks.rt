// A chunk of a text: it is taken in pieces, and each piece is read, played and printed.
//
// That line and device are inside their ranges, and what is lent is as long as the part has it, stands in four
// contracts: as ghost fields of `Placed` it would have to be shown wherever one is made, which is oftener.
ghost use Rattle.std.specs.Prelude.{◌≡◌, true, ◌+◌, ◌*◌, ◌<◌, ◌≤◌, length, leb};
ghost use Rattle.chip.specs.Lents.{lent};
ghost use Rattle.pins.specs.Devices.{device_part};
ghost use Rattle.pins.specs.Answers.{played, pin_bench};
ghost use Rattle.events.specs.Events.{are_events};
ghost use Rattle.pins.specs.Ranges.{device_fits};
ghost use Rattle.lines.specs.Reading.{line_fits};
ghost use Rattle.printing.specs.Put.{put};
ghost use Rattle.player.specs.Players.{player_fits};
ghost use Rattle.trace.specs.Chunks.{headed_by, bad_line_between, shown_events, chunk_bench, chunk_output, end_output};
ghost use Rattle.trace.specs.Chunks.{answer_of, room, fed_by, taken_by, ended_by, refused_to};
ghost use Rattle.trace.specs.Pieces.{Shows, Took};

use crate::parsing::parse;
use crate::{Fed, FeedError};
use codes::Refusal;
use lines::Line;
use lists::play;
use pins::Device;
use player::Player;
use printing::{print, put_bad, put_header};

// The device after some events, and the index after their lines.
// Stays a struct: `device` and `at` say more than the places of a tuple.
#[derive(Clone, Copy)]
struct Shown {
    device: Device,
    at: usize,
}

// Events are played, and each is printed with Q after it, as the lines from number n on.
fn show(
    device: Device,
    memory: &mut [u8],
    identification: &mut [u8],
    events: &[u64],
    qs: &mut [u8],
    out: &mut [u8],
    at: usize,
    n: u32,
) -> Shown
    requires { (length memory.old ≡ (device_part device).size)
        × (length identification.old ≡ (device_part device).page) × (device_fits (device_part device) device ≡ true)
        × (are_events events.now ≡ true) × (length qs.old ≡ length events.now)
        × (at + 10 * length events.now ≤ length out.old) }
    ensures { Shows (played (device_part device) events.now
        (pin_bench device memory.old identification.old))
        (shown_events n (pin_bench device memory.old identification.old) events.now)
        out.old at (length events.now)
        result.device memory.new identification.new out.new result.at }
{
    let device = play(device, memory, identification, events, qs).device;
    let at = print(out, at, n, qs);
    Shown { device, at }
}

// The line and the device in hand, and the index in the output: before a piece of the text, and after it.
#[derive(Clone, Copy)]
struct Placed {
    line: Line,
    device: Device,
    at: usize,
}

// A piece of the text is read into events, and these are shown.
fn piece(
    placed: Placed,
    memory: &mut [u8],
    identification: &mut [u8],
    text: &[u8],
    events: &mut [u64],
    qs: &mut [u8],
    out: &mut [u8],
) -> Placed
    requires memory_len { (length memory.old ≡ (device_part placed.device).size)
        × (length identification.old ≡ (device_part placed.device).page)
        × (device_fits (device_part placed.device) placed.device ≡ true)
        × (line_fits placed.line ≡ true) }
    requires text_in_bounds { (length text.now ≤ length events.old) × (length text.now ≤ length qs.old)
        × (placed.at + 10 * length text.now ≤ length out.old) }
    ensures { Took placed.line (pin_bench placed.device memory.old identification.old)
        text.now out.old placed.at result memory.new identification.new
        out.new }
{
    let parsed = parse(placed.line, text, events);
    let shown = show(
        placed.device,
        memory,
        identification,
        &events[..parsed.count],
        &mut qs[..parsed.count],
        out,
        placed.at,
        placed.line.whole + 1,
    );
    Placed {
        line: parsed.line,
        device: shown.device,
        at: shown.at,
    }
}

// A text of any length, 1,024 bytes at a time.
fn pieces(
    start: Placed,
    memory: &mut [u8],
    identification: &mut [u8],
    text: &[u8],
    out: &mut [u8],
) -> Placed
    requires { (length memory.old ≡ (device_part start.device).size)
        × (length identification.old ≡ (device_part start.device).page)
        × (device_fits (device_part start.device) start.device ≡ true)
        × (line_fits start.line ≡ true)
        × (start.at + 10 * length text.now ≤ length out.old) }
    ensures { Took start.line (pin_bench start.device memory.old identification.old)
        text.now out.old start.at result memory.new identification.new
        out.new }
{
    let mut events = [0; 1024];
    let mut qs = [0; 1024];
    let mut placed = start;
    for bytes in text.chunks(1024) {
        placed = piece(
            placed,
            memory,
            identification,
            bytes,
            &mut events,
            &mut qs,
            out,
        );
    }
    placed
}

// ---- what stands before and after the lines of a chunk

// The header, where it is not out yet.
#[tactic(auto, using(crate::proofs::Choosing::parts), unfolding(laws::specs::Pick::pick))]
fn put_head(flag: u8, out: &mut [u8]) -> usize
    requires { 7 ≤ length out.old }
    ensures out_after { out.new ≡ put out.old 0 (headed_by flag) }
    ensures value { (result ≡ length (headed_by flag)) × (result ≤ 7) }
{
    if flag == 0 {
        return put_header(out, 0);
    }
    0
}

// The bad line, where the text came to it between the lines a and b in hand.
#[tactic(auto, using(crate::proofs::Choosing::parts), unfolding(laws::specs::Pick::pick))]
fn put_bad_between(out: &mut [u8], at: usize, a: Line, b: Line) -> usize
    requires { (at + 12 ≤ length out.old) × (line_fits b ≡ true) }
    ensures out_after { out.new ≡ put out.old at (bad_line_between a b) }
    ensures value { (result ≡ at + length (bad_line_between a b)) × (result ≤ at + 12) }
{
    if a.place == 5 {
        return at;
    }
    if b.place == 5 {
        return put_bad(out, at, b.whole + 1);
    }
    at
}

fn answer_of(player: Player) -> Result<(), FeedError>
    ensures { result ≡ answer_of player }
{
    if player.line.place == 5 {
        return Err(FeedError::BadLine);
    }
    Ok(())
}

// Whether an output of so many bytes has the room that n bytes of text ask for.
pub(crate) fn has_room(n: usize, bytes: usize) -> bool
    ensures { result ≡ leb (room n) bytes }
{
    19 <= bytes && n <= (bytes - 19) / 10
}

pub(crate) fn refused(player: Player, refusal: Refusal) -> Fed
    ensures { result ≡ refused_to refusal player }
{
    Fed {
        answer: Err(refusal.into()),
        player,
        written: 0,
    }
}

// What is handed back, with the line and the device in hand: the header is out.
fn fed(line: Line, device: Device, written: usize) -> Fed
    ensures { result ≡ fed_by line device written }
{
    let player = Player {
        headed: 1,
        line,
        device,
    };
    Fed {
        answer: answer_of(player),
        player,
        written,
    }
}

// A chunk that is taken.
pub(crate) fn take_chunk(
    player: Player,
    memory: &mut [u8],
    identification: &mut [u8],
    text: &[u8],
    out: &mut [u8],
) -> Fed
    requires { (length memory.old ≡ (device_part player.device).size)
        × (length identification.old ≡ (device_part player.device).page) × (player_fits player ≡ true)
        × (room (length text.now) ≤ length out.old) }
    ensures value { result
        ≡ taken_by player (lent memory.old identification.old) text.now }
    ensures memory_after { memory.new ≡ (chunk_bench player
        (lent memory.old identification.old) text.now).memory }
    ensures identification_after { identification.new ≡ (chunk_bench player
        (lent memory.old identification.old) text.now).identification }
    ensures out_after { out.new ≡ put out.old 0 (chunk_output player
        (lent memory.old identification.old) text.now) }
    ensures written_in_bounds { result.written ≤ length out.old }
{
    let at = put_head(player.headed, out);
    let start = Placed {
        line: player.line,
        device: player.device,
        at,
    };
    let placed = pieces(start, memory, identification, text, out);
    let end = put_bad_between(out, placed.at, player.line, placed.line);
    fed(placed.line, placed.device, end)
}

// The end of a text that is taken.
pub(crate) fn take_end(player: Player, out: &mut [u8]) -> Fed
    requires { (player_fits player ≡ true) × (19 ≤ length out.old) }
    ensures value { result ≡ ended_by player }
    ensures out_after { out.new ≡ put out.old 0 (end_output player) }
    ensures written_in_bounds { result.written ≤ length out.old }
{
    let hand = player.line.ended();
    let at = put_head(player.headed, out);
    let end = put_bad_between(out, at, player.line, hand);
    fed(hand, player.device, end)
}
