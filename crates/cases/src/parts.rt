// Cases that the parts answer differently: WRDI in a cycle on each of them; of the M95M01 its longest cycle, where its
// protection starts, and driver runs over FFFFh.
use crate::boards::{Board, zeros};
use crate::driven::{refused, run};
use crate::{lowest, power, protect, say, say_left, with_bp};
use chip::Core;
use codes::{M95M01, M95512, M95512D, WRDI, WREN, WRITE, address_bytes_of, longest_of};
use std::io;
use std::io::Write;

// ---- WRDI in a cycle

// WREN, and a WRITE of 11h to cell 0.
fn written(core: Core) -> Board {
    let enabled = Board::over(core, zeros()).after(&[WREN]);
    if address_bytes_of(core.part) == 3 {
        return enabled.after(&[WRITE, 0, 0, 0, 0x11]);
    }
    enabled.after(&[WRITE, 0, 0, 0x11])
}

fn say_core(to: &mut impl Write, what: &[u8], core: Core) -> io::Result<()> {
    say(to, what, core.status())?;
    say_left(to, core)
}

// The status byte after a WRDI in a cycle, then after a WREN there and at the cycle's end.
fn wrdi(to: &mut impl Write, what: &[u8], part: u8) -> io::Result<()> {
    let mut board = written(with_bp(part, false, false));
    board.send(&[WRDI], 8);
    say_core(to, what, board.core)?;
    board.send(&[WREN], 8);
    say_core(to, b"  status after WREN", board.core)?;
    board.read(longest_of(part));
    say_core(to, b"  status at the end", board.core)?;
    say(to, b"  cell 0", board.memory[0])
}

fn wrdi_in_cycle(to: &mut impl Write) -> io::Result<()> {
    wrdi(to, b"M95512: WRDI in a cycle", M95512)?;
    wrdi(to, b"M95512-D: WRDI in a cycle", M95512D)?;
    wrdi(to, b"M95M01: WRDI in a cycle", M95M01)
}

// ---- the M95M01

fn large_power(to: &mut impl Write) -> io::Result<()> {
    power(to, b"M95M01: power-up, cycle 4000", M95M01, 4000)?;
    power(to, b"M95M01: power-up, cycle 4001", M95M01, 4001)
}

fn large_protection(to: &mut impl Write) -> io::Result<()> {
    let quarter = with_bp(M95M01, false, true);
    let none = with_bp(M95M01, false, false);
    protect(to, b"M95M01: BP 01, 17FFFh", quarter, 0x17fff)?;
    protect(to, b"M95M01: BP 01, 18000h", quarter, 0x18000)?;
    protect(to, b"M95M01: BP 00, 1FFFFh", none, 0x1ffff)?;
    protect(to, b"M95M01: BP 00, 20000h", none, 0x20000)
}

fn large_lowest(to: &mut impl Write) -> io::Result<()> {
    lowest(to, b"M95M01: BP 00", with_bp(M95M01, false, false))?;
    lowest(to, b"M95M01: BP 01", with_bp(M95M01, false, true))?;
    lowest(to, b"M95M01: BP 10", with_bp(M95M01, true, false))?;
    lowest(to, b"M95M01: BP 11", with_bp(M95M01, true, true))
}

// 300 bytes from FF9Ch on: 100 in page 255, 200 in page 256. The cells at their edges and at 10000h.
fn large_run(
    to: &mut impl Write,
    what: &[u8],
    core: Core,
    interval: u32,
    limit: u32,
) -> io::Result<()> {
    let memory = run(to, what, core, 0xff9c, 300, interval, limit)?;
    say(to, b"  cell FF9Ch", memory[0xff9c])?;
    say(to, b"  cell FFFFh", memory[0xffff])?;
    say(to, b"  cell 10000h", memory[0x10000])?;
    say(to, b"  cell 100C7h", memory[0x100c7])?;
    say(to, b"  cell 100C8h", memory[0x100c8])
}

fn large_runs(to: &mut impl Write) -> io::Result<()> {
    let none = with_bp(M95M01, false, false);
    let half = with_bp(M95M01, true, false);
    large_run(
        to,
        b"M95M01: 300 bytes at FF9Ch, interval 1000",
        none,
        1000,
        4001,
    )?;
    large_run(to, b"M95M01: interval 700", none, 700, 4001)?;
    large_run(to, b"M95M01: interval 1000, limit 3", none, 1000, 3)?;
    large_run(to, b"M95M01: BP 10, 300 bytes at FF9Ch", half, 1000, 4001)
}

fn large_refusals(to: &mut impl Write) -> io::Result<()> {
    let fresh = Board::over(with_bp(M95M01, false, false), zeros());
    let short = fresh.lent(65536);
    refused(
        to,
        b"M95M01: one byte at 131071",
        fresh,
        131071,
        1,
        4000,
        4001,
    )?;
    refused(
        to,
        b"M95M01: one byte at 131072",
        fresh,
        131072,
        1,
        4000,
        4001,
    )?;
    refused(to, b"M95M01: interval 4001", fresh, 0, 1, 4001, 4001)?;
    refused(to, b"M95M01: limit 4002", fresh, 0, 1, 4000, 4002)?;
    refused(to, b"M95M01: a memory of 65536", short, 0, 1, 4000, 4001)
}

pub(crate) fn all(to: &mut impl Write) -> io::Result<()> {
    wrdi_in_cycle(to)?;
    large_power(to)?;
    large_protection(to)?;
    large_lowest(to)?;
    large_runs(to)?;
    large_refusals(to)
}
