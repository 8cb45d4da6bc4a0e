// Cases of the driver: g, h and l, a running cycle, runs at the edge of the protected block, and what is refused.
use crate::boards::{Board, Memory, zeros};
use crate::{powered, say, say_last, say_left, say_status, with_bp};
use chip::Core;
use codes::{M95512, WRITE, WRSR};
use std::io;
use std::io::Write;

// A run over a memory with every byte 0: the number, pages done, frames sent, and of the record that it leaves the
// status byte, the time left and the last reading. Then the memory.
pub(crate) fn run(
    to: &mut impl Write,
    what: &[u8],
    core: Core,
    address: u64,
    count: usize,
    interval: u32,
    limit: u32,
) -> io::Result<Memory> {
    let mut board = Board::over(core, zeros());
    let run = board.run(address, count, interval, limit);
    say(to, what, run.number)?;
    say(to, b"  pages done", run.sent.pages)?;
    say(to, b"  frames sent", run.sent.frames)?;
    say_status(to, board.core)?;
    say_left(to, board.core)?;
    say_last(to, board.core)?;
    Ok(board.memory)
}

// 300 bytes from address 100 on, and the cells at their edges.
fn run_300(
    to: &mut impl Write,
    what: &[u8],
    core: Core,
    interval: u32,
    limit: u32,
) -> io::Result<()> {
    let memory = run(to, what, core, 100, 300, interval, limit)?;
    say(to, b"  cell 100", memory[100])?;
    say(to, b"  cell 101", memory[101])?;
    say(to, b"  cell 399", memory[399])?;
    say(to, b"  cell 400", memory[400])
}

fn whole_runs(to: &mut impl Write) -> io::Result<()> {
    let fresh = Core::delivered(M95512);
    run_300(to, b"h: 300 bytes at 100, interval 1000", fresh, 1000, 5001)?;
    run_300(to, b"h: interval 700", fresh, 700, 5001)?;
    run_300(to, b"interval 1000, limit 5", fresh, 1000, 5)?;
    run_300(to, b"l: interval 1000, limit 4", fresh, 1000, 4)?;
    let late = powered(zeros(), M95512, 5000, false, false, false, 4294967290).core;
    run_300(to, b"the counter wraps", late, 5000, 1)
}

// A cycle that a frame has begun runs when the driver comes.
fn begun(core: Core, bytes: &[u8]) -> Core {
    Board::over(core.with_wel(1), zeros()).after(bytes).core
}

// One of another page: 11h waits for cell 0.
fn running_cycle(to: &mut impl Write) -> io::Result<()> {
    let busy = begun(Core::delivered(M95512), &[WRITE, 0, 0, 0x11]);
    run_300(to, b"a running cycle, interval 1000", busy, 1000, 6)?;
    run_300(to, b"a running cycle, limit 5", busy, 1000, 5)
}

// A run at interval 5,000, and the cells on either side of C000h.
fn at_block(
    to: &mut impl Write,
    what: &[u8],
    core: Core,
    address: u64,
    count: usize,
    limit: u32,
) -> io::Result<()> {
    let memory = run(to, what, core, address, count, 5000, limit)?;
    say(to, b"  cell BFFFh", memory[0xbfff])?;
    say(to, b"  cell C000h", memory[0xc000])
}

fn protected_block(to: &mut impl Write) -> io::Result<()> {
    let upper = with_bp(M95512, false, true);
    let enabled = upper.with_wel(1);
    let all = with_bp(M95512, true, true);
    at_block(to, b"BP 01, 16 bytes at BFF0h", upper, 0xbff0, 16, 1)?;
    at_block(to, b"BP 01, 17 bytes at BFF0h", upper, 0xbff0, 17, 1)?;
    at_block(to, b"BP 01, 300 bytes at BFF0h", upper, 0xbff0, 300, 1)?;
    at_block(
        to,
        b"BP 01, WEL 1, one byte at FFFFh",
        enabled,
        0xffff,
        1,
        1,
    )?;
    at_block(to, b"BP 11, one byte at 0", all, 0, 1, 1)?;
    at_block(to, b"BP 11, no data at 0", all, 0, 0, 1)
}

// A status cycle: WRSR of the value that waits.
fn moved_block(to: &mut impl Write) -> io::Result<()> {
    let sets = begun(with_bp(M95512, false, false), &[WRSR, 0x04]);
    let clears = begun(with_bp(M95512, false, true), &[WRSR, 0x00]);
    at_block(to, b"BP 00 to 01, one byte at C000h", sets, 0xc000, 1, 2)?;
    at_block(to, b"BP 01 to 00, one byte at C000h", clears, 0xc000, 1, 2)?;
    at_block(to, b"BP 00 to 01, limit 1", sets, 0xc000, 1, 1)?;
    at_block(to, b"BP 01 to 00, limit 1", clears, 0xc000, 1, 1)
}

fn nothing_to_write(to: &mut impl Write) -> io::Result<()> {
    let fresh = Core::delivered(M95512);
    run(to, b"no data at 65536", fresh, 65536, 0, 1, 1)?;
    let memory = run(to, b"one byte at 65535", fresh, 65535, 1, 5000, 1)?;
    say(to, b"  cell FFFFh", memory[0xffff])
}

// ---- what is refused

pub(crate) fn refused(
    to: &mut impl Write,
    what: &[u8],
    mut board: Board,
    address: u64,
    count: usize,
    interval: u32,
    limit: u32,
) -> io::Result<()> {
    say(to, what, board.run(address, count, interval, limit).number)
}

// Refusals 1, 2, 7 and 8, also with no data, and the first in the order where several apply.
fn bad_address(to: &mut impl Write, fresh: Board) -> io::Result<()> {
    refused(to, b"one byte at 65536", fresh, 65536, 1, 1, 1)?;
    refused(to, b"no data at 65537", fresh, 65537, 0, 1, 1)?;
    refused(to, b"a sum past 2^64", fresh, 18446744073709551615, 1, 1, 1)?;
    refused(to, b"a sum past 2^32", fresh, 4294967295, 1, 1, 1)
}

fn bad_polls(to: &mut impl Write, fresh: Board) -> io::Result<()> {
    refused(to, b"interval 0", fresh, 0, 0, 0, 1)?;
    refused(to, b"interval 5001", fresh, 0, 0, 5001, 1)?;
    refused(to, b"limit 0", fresh, 0, 0, 1, 0)?;
    refused(to, b"limit 5002", fresh, 0, 0, 1, 5002)
}

fn bad_record(to: &mut impl Write, fresh: Board, broken: Board) -> io::Result<()> {
    refused(to, b"time left and nothing waiting", broken, 0, 0, 1, 1)?;
    refused(to, b"that and all that follow", broken, 65536, 1, 0, 0)?;
    refused(to, b"address and interval", fresh, 65536, 1, 0, 0)
}

fn bad_memory(to: &mut impl Write, fresh: Board, broken: Board) -> io::Result<()> {
    refused(to, b"a memory one short", fresh.lent(65535), 0, 1, 1, 1)?;
    refused(to, b"all at once", broken.lent(65535), 65536, 1, 0, 0)
}

fn refusals(to: &mut impl Write) -> io::Result<()> {
    let mut core = Core::delivered(M95512);
    let fresh = Board::over(core, zeros());
    core.left = 1;
    let broken = Board::over(core, zeros());
    bad_address(to, fresh)?;
    bad_polls(to, fresh)?;
    bad_record(to, fresh, broken)?;
    bad_memory(to, fresh, broken)
}

pub(crate) fn all(to: &mut impl Write) -> io::Result<()> {
    whole_runs(to)?;
    running_cycle(to)?;
    protected_block(to)?;
    moved_block(to)?;
    nothing_to_write(to)?;
    refusals(to)
}
