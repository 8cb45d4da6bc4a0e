// Worked cases through the public calls, a line each: what was asked, and the number given back. The gate compares
// them with the file stdout, whose numbers were worked out by hand from the rules.
#![tactic(auto)]

use boards::{Board, Memory, zeros};
use chip::{Answered, Core, Kind, Waiting, power_up};
use codes::{M95512, Numbered, RDSR, READ, Refusal, WREN, WRITE, longest_of, size_of};
use frames::frame;
use latch::Latch;
use std::io;
use std::io::Write;

mod blank;
mod boards;
mod driven;
mod parts;

pub(crate) fn say(to: &mut impl Write, what: &[u8], number: impl Into<u64>) -> io::Result<()> {
    console::say(to, what, number.into())
}

pub(crate) fn say_status(to: &mut impl Write, core: Core) -> io::Result<()> {
    say(to, b"  its status byte", core.status())
}

pub(crate) fn say_left(to: &mut impl Write, core: Core) -> io::Result<()> {
    say(to, b"  time left", core.left)
}

pub(crate) fn say_last(to: &mut impl Write, core: Core) -> io::Result<()> {
    say(to, b"  its last reading", core.last)
}

// ---- power-up and protection

// Power-up over as much of a memory as the part has.
pub(crate) fn powered(
    memory: Memory,
    part: u8,
    cycle: u32,
    srwd: bool,
    bp1: bool,
    bp0: bool,
    reading: u32,
) -> Answered<(), Refusal> {
    let size = size_of(part);
    power_up(part, false, cycle, srwd, bp1, bp0, reading, &memory[..size])
}

pub(crate) fn power(to: &mut impl Write, what: &[u8], part: u8, cycle: u32) -> io::Result<()> {
    let p = powered(zeros(), part, cycle, true, true, true, 7);
    say(to, what, p.answer.number())?;
    say_status(to, p.core)?;
    say_last(to, p.core)
}

fn powers(to: &mut impl Write) -> io::Result<()> {
    power(to, b"power-up, cycle 0", M95512, 0)?;
    power(to, b"power-up, cycle 1", M95512, 1)?;
    power(to, b"power-up, cycle 5000", M95512, 5000)?;
    power(to, b"power-up, cycle 5001", M95512, 5001)
}

// A part with the given bits, no lock and its longest cycle.
pub(crate) fn with_bp(part: u8, bp1: bool, bp0: bool) -> Core {
    powered(zeros(), part, longest_of(part), false, bp1, bp0, 0).core
}

pub(crate) fn protect(
    to: &mut impl Write,
    what: &[u8],
    core: Core,
    address: u32,
) -> io::Result<()> {
    let answer = core.protection(address);
    say(to, what, answer.number())?;
    say(to, b"  protected", answer.unwrap_or(false))
}

fn protections(to: &mut impl Write) -> io::Result<()> {
    let none = with_bp(M95512, false, false);
    let quarter = with_bp(M95512, false, true);
    let half = with_bp(M95512, true, false);
    protect(to, b"BP 01, BFFFh", quarter, 0xbfff)?;
    protect(to, b"BP 01, C000h", quarter, 0xc000)?;
    protect(to, b"BP 10, 7FFFh", half, 0x7fff)?;
    protect(to, b"BP 10, 8000h", half, 0x8000)?;
    protect(to, b"BP 11, 0000h", with_bp(M95512, true, true), 0)?;
    protect(to, b"BP 00, FFFFh", none, 0xffff)?;
    protect(to, b"BP 00, 10000h", none, 0x10000)
}

pub(crate) fn lowest(to: &mut impl Write, what: &[u8], core: Core) -> io::Result<()> {
    let answer = core.protected_from();
    say(to, what, answer.number())?;
    say(to, b"  protected from", answer.unwrap_or(0))
}

fn lowest_cells(to: &mut impl Write) -> io::Result<()> {
    lowest(to, b"BP 00", Core::delivered(M95512))?;
    lowest(to, b"BP 01", with_bp(M95512, false, true))?;
    lowest(to, b"BP 10", with_bp(M95512, true, false))?;
    lowest(to, b"BP 11", with_bp(M95512, true, true))
}

// ---- clock readings

// A cycle of 5,000 that began at reading 4294967290, with page 1 waiting: cell 128 gets 11h.
fn waiting(wel: u8) -> Core {
    let mut core = powered(zeros(), M95512, 5000, false, false, false, 4294967290).core;
    let mut latch = Latch::none();
    latch.bytes[0] = 0x11;
    latch.marks[0] = 1;
    core.wel = wel;
    core.left = 5000;
    core.waits = Waiting {
        kind: Kind::Page as u8,
        status: 0,
        page: 1,
        latch,
    };
    core
}

fn time(to: &mut impl Write, what: &[u8], core: Core, reading: u32) -> io::Result<()> {
    let mut board = Board::over(core, zeros());
    say(to, what, board.read(reading))?;
    say_status(to, board.core)?;
    say_left(to, board.core)?;
    say(to, b"  cell 128", board.memory[128])
}

fn times(to: &mut impl Write) -> io::Result<()> {
    let broken = waiting(2);
    time(to, b"16 microseconds later", waiting(1), 10)?;
    time(to, b"4999 microseconds later", waiting(1), 4993)?;
    time(to, b"5000 microseconds later", waiting(1), 4994)?;
    time(to, b"a WEL of 2", broken, 4994)?;
    lowest(to, b"a WEL of 2", broken)?;
    let mut short = Board::over(broken, zeros()).lent(128);
    say(to, b"a memory of 128 bytes", short.read(0))
}

// ---- frames

// A frame with W high: its number, the undriven count, output bytes 1 and 3 (counted from 0; 0 where the frame has
// none) and the status that it leaves.
fn send(
    to: &mut impl Write,
    what: &[u8],
    core: Core,
    bytes: &[u8],
    bits: usize,
) -> io::Result<Core> {
    let mut board = Board::over(core, zeros());
    let reply = board.send(bytes, bits);
    say(to, what, reply.number)?;
    say(to, b"  undriven", reply.undriven as u64)?;
    say(to, b"  output byte 1", reply.out[1])?;
    say(to, b"  output byte 3", reply.out[3])?;
    say_status(to, board.core)?;
    Ok(board.core)
}

fn guarded(mut core: Core) -> Core {
    core.bp1 = 1;
    core.bp0 = 1;
    core
}

// In the cycle that a WRITE has begun: k.
fn in_cycle(to: &mut impl Write, busy: Core) -> io::Result<()> {
    send(to, b"k: READ in a cycle", busy, &[READ, 0, 0x7e, 0, 0], 40)?;
    send(to, b"RDSR in a cycle", busy, &[RDSR, 0], 16)?;
    send(to, b"WREN in a cycle", busy, &[WREN], 8)?;
    Ok(())
}

// A WRITE that is cut short, ignored and taken.
fn writes(to: &mut impl Write, enabled: Core) -> io::Result<()> {
    let all = guarded(enabled);
    let write = [WRITE, 0, 0x7e, 0x11, 0x22, 0x33, 0x44];
    send(to, b"b: WRITE with 55 bits", enabled, &write, 55)?;
    send(
        to,
        b"WRITE to a protected address",
        all,
        &[WRITE, 0, 0x7e, 0x11],
        32,
    )?;
    let busy = send(to, b"a: WRITE with 56 bits", enabled, &write, 56)?;
    in_cycle(to, busy)
}

// Cases of the frame model: a, b, j and k among them.
fn frames_sent(to: &mut impl Write) -> io::Result<()> {
    let fresh = Core::delivered(M95512);
    send(to, b"j: WREN with 16 bits", fresh, &[WREN, 0], 16)?;
    let enabled = send(to, b"WREN", fresh, &[WREN], 8)?;
    writes(to, enabled)?;
    send(to, b"READ, idle", enabled, &[READ, 0, 0x7e, 0, 0], 40)?;
    send(to, b"READ of 29 bits", enabled, &[READ, 0, 0x7e, 0], 29)?;
    send(to, b"three bits", fresh, &[WREN], 3)?;
    send(to, b"no bits", fresh, &[], 0)?;
    Ok(())
}

// What is refused, and that the first in the order decides: RDSR in so many bytes, so many bits, and room for so many
// bytes.
fn refused(
    to: &mut impl Write,
    what: &[u8],
    mut board: Board,
    bytes: &[u8],
    bits: usize,
    room: usize,
) -> io::Result<()> {
    say(to, what, board.ask(bytes, bits, room).number)
}

fn bad_memory(to: &mut impl Write, fresh: Board, broken: Board) -> io::Result<()> {
    refused(to, b"memory of 65537", fresh.lent(65537), &[RDSR, 0], 16, 2)?;
    refused(to, b"memory of 65535", fresh.lent(65535), &[RDSR, 0], 16, 2)?;
    refused(to, b"all of them", broken.lent(65537), &[RDSR, 0], 99, 1)
}

fn bad_lengths(to: &mut impl Write, fresh: Board) -> io::Result<()> {
    refused(to, b"a bit too many", fresh, &[RDSR, 0], 17, 2)?;
    refused(to, b"a bit too few", fresh, &[RDSR, 0], 8, 2)?;
    refused(to, b"a bit of no bytes", fresh, &[], 1, 0)?;
    refused(to, b"an output too long", fresh, &[RDSR, 0], 16, 3)?;
    refused(to, b"an output too short", fresh, &[RDSR, 0], 16, 1)
}

fn frames_refused(to: &mut impl Write) -> io::Result<()> {
    let mut core = Core::delivered(M95512);
    let fresh = Board::over(core, zeros());
    core.srwd = 2;
    let broken = Board::over(core, zeros());
    bad_memory(to, fresh, broken)?;
    refused(to, b"SRWD 2", broken, &[RDSR, 0], 16, 2)?;
    refused(to, b"all but the memory", broken, &[RDSR, 0], 99, 1)?;
    bad_lengths(to, fresh)
}

fn too_long(to: &mut impl Write) -> io::Result<()> {
    let memory = console::zeros::<65536>();
    let page = [0xffu8; 128];
    let bytes = [RDSR; 65541];
    let mut out = [0u8; 8];
    let core = Core::delivered(M95512);
    let answer = frame(core, &memory, &page, true, &bytes, 1, &mut out).answer;
    say(to, b"65541 bytes", answer.number())
}

fn main(rt: HostRuntime) -> io::Result<()> {
    let mut out = io::writer(&rt);
    powers(&mut out)?;
    protections(&mut out)?;
    lowest_cells(&mut out)?;
    times(&mut out)?;
    frames_sent(&mut out)?;
    frames_refused(&mut out)?;
    too_long(&mut out)?;
    driven::all(&mut out)?;
    parts::all(&mut out)?;
    blank::all(&mut out)
}
