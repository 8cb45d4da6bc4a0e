// Cases of the number of blank cells, those that hold FFh: at delivery, at power-up, at the end of a page cycle, of a
// number that was wrong before, and of one that is above the memory's size.
use crate::boards::{Board, Memory, blanks, zeros};
use crate::{powered, say};
use chip::{Core, power_up};
use codes::{LARGE_SIZE, M95M01, M95512, M95512D, Numbered, WREN, WRID, WRITE, WRSR, longest_of};
use std::io;
use std::io::Write;

// ---- delivery

fn delivered(to: &mut impl Write, what: &[u8], part: u8) -> io::Result<()> {
    let core = Core::delivered(part);
    say(to, what, core.blank)
}

fn deliveries(to: &mut impl Write) -> io::Result<()> {
    delivered(to, b"blank: M95512 as delivered", M95512)?;
    delivered(to, b"blank: M95512-D as delivered", M95512D)?;
    delivered(to, b"blank: M95M01 as delivered", M95M01)?;
    delivered(to, b"blank: part 3 as delivered", 3)
}

// ---- power-up

// The number of the outcome, and the number of blank cells, where the memory's first cells are lent.
fn power(
    to: &mut impl Write,
    what: &[u8],
    part: u8,
    cycle: u32,
    memory: Memory,
    size: usize,
) -> io::Result<()> {
    let n = size.min(LARGE_SIZE);
    let p = power_up(part, true, cycle, true, true, true, 7, &memory[..n]);
    say(to, what, p.answer.number())?;
    say(to, b"  blank cells", p.core.blank)
}

// FFh but for the first and the last cell of the M95512, and one between.
fn small() -> Memory {
    let mut memory = blanks();
    memory[0] = 0;
    memory[128] = 0x7f;
    memory[65535] = 0xfe;
    memory
}

// FFh but for the cells on either side of 10000h, and the M95M01's last.
fn large(last: u8) -> Memory {
    let mut memory = blanks();
    memory[65535] = 0;
    memory[65536] = 0;
    memory[131071] = last;
    memory
}

fn powers(to: &mut impl Write) -> io::Result<()> {
    let mut one = zeros();
    one[65535] = 0xff;
    let some = b"blank: power-up, cells 0, 128 and 65535 not FFh";
    power(to, some, M95512, 5000, small(), 65536)?;
    let two = b"blank: M95M01, cells 65535 and 65536 not FFh";
    power(to, two, M95M01, 4000, large(0xff), 131072)?;
    let three = b"blank: M95M01, cell 131071 too";
    power(to, three, M95M01, 4000, large(0xfe), 131072)?;
    power(to, b"blank: one cell FFh", M95512, 5000, one, 65536)
}

// The first in the order decides: 1, then 2, then 6. No cell is counted.
fn powers_refused(to: &mut impl Write) -> io::Result<()> {
    let all = blanks();
    power(
        to,
        b"blank: a memory one short, cycle 0",
        M95512,
        0,
        all,
        65535,
    )?;
    let unknown = b"blank: part 3, a memory one short, cycle 0";
    power(to, unknown, 3, 0, all, 65535)?;
    power(to, b"blank: part 3, cycle 0", 3, 0, all, 65536)?;
    power(to, b"blank: cycle 0", M95512, 0, all, 65536)?;
    let half = b"blank: M95M01, a memory of 65536";
    power(to, half, M95M01, 4000, all, 65536)
}

// ---- page cycles

// A part over its memory, nothing protected.
fn board(part: u8, memory: Memory) -> Board {
    let p = powered(memory, part, longest_of(part), false, false, false, 0);
    Board::over(p.core, memory)
}

// WREN, then a frame that begins a cycle.
fn begun(board: Board, bytes: &[u8]) -> Board {
    board.after(&[WREN]).after(bytes)
}

// The end of the cycle that runs.
fn ended(mut board: Board) -> Board {
    let reading = board.core.last.wrapping_add(board.core.left);
    board.read(reading);
    board
}

// A frame that begins a cycle, and the number once it is over.
fn write(to: &mut impl Write, what: &[u8], board: Board, bytes: &[u8]) -> io::Result<Board> {
    let next = ended(begun(board, bytes));
    say(to, what, next.core.blank)?;
    Ok(next)
}

// The number moves at the end of the cycle, not at its start.
fn first_write(to: &mut impl Write) -> io::Result<Board> {
    let busy = begun(
        board(M95512, small()),
        &[WRITE, 0, 0x02, 0x11, 0x22, 0xff, 0x33],
    );
    say(
        to,
        b"blank: 11h 22h FFh 33h at 2, in the cycle",
        busy.core.blank,
    )?;
    let next = ended(busy);
    say(to, b"blank: at its end", next.core.blank)?;
    Ok(next)
}

// From three cells not FFh: 0, 128 and 65535.
fn small_cycles(to: &mut impl Write) -> io::Result<()> {
    let mut board = first_write(to)?;
    board = write(
        to,
        b"blank: FFh FFh at 2",
        board,
        &[WRITE, 0, 0x02, 0xff, 0xff],
    )?;
    board = write(
        to,
        b"blank: 00h FFh at 0, as the cells are",
        board,
        &[WRITE, 0, 0, 0, 0xff],
    )?;
    board = write(
        to,
        b"blank: 44h at 5, 33h before",
        board,
        &[WRITE, 0, 0x05, 0x44],
    )?;
    board = write(
        to,
        b"blank: FFh 55h 55h FFh at 0",
        board,
        &[WRITE, 0, 0, 0xff, 0x55, 0x55, 0xff],
    )?;
    board = write(
        to,
        b"blank: 66h 66h at 127, on to 0",
        board,
        &[WRITE, 0, 0x7f, 0x66, 0x66],
    )?;
    board = write(
        to,
        b"blank: FFh at 65535",
        board,
        &[WRITE, 0xff, 0xff, 0xff],
    )?;
    board = write(to, b"blank: WRSR", board, &[WRSR, 0])?;
    say(to, b"blank: counted afresh", board.counted())
}

// The M95M01: pages of 256 cells. From three cells not FFh: 65535, 65536 and 131071.
fn large_cycles(to: &mut impl Write) -> io::Result<()> {
    let mut board = board(M95M01, large(0));
    let below = b"blank: M95M01, FFh 00h at FFFFh, on to FF00h";
    board = write(to, below, board, &[WRITE, 0, 0xff, 0xff, 0xff, 0])?;
    board = write(
        to,
        b"blank: M95M01, FFh FFh at 10000h",
        board,
        &[WRITE, 0x01, 0, 0, 0xff, 0xff],
    )?;
    let last = b"blank: M95M01, 77h 77h at 1FFFFh, on to 1FF00h";
    board = write(to, last, board, &[WRITE, 0x01, 0xff, 0xff, 0x77, 0x77])?;
    say(to, b"blank: M95M01, counted afresh", board.counted())
}

// The identification page is not counted.
fn identification_cycle(to: &mut impl Write) -> io::Result<()> {
    let what = b"blank: M95512-D, 5Ah in the identification page";
    let next = write(to, what, board(M95512D, blanks()), &[WRID, 0, 0, 0x5a])?;
    say(to, b"  its cell 0", next.page[0])
}

// ---- wrong numbers

// A part as delivered but for the number.
fn with_blank(part: u8, blank: u32) -> Core {
    Core {
        blank,
        ..Core::delivered(part)
    }
}

// Three blank cells go, of a record with so many.
fn lost(to: &mut impl Write, what: &[u8], blank: u32) -> io::Result<()> {
    write(
        to,
        what,
        Board::over(with_blank(M95512, blank), blanks()),
        &[WRITE, 0, 0, 0, 0, 0],
    )?;
    Ok(())
}

// Three blank cells come.
fn gained(to: &mut impl Write, what: &[u8], blank: u32) -> io::Result<()> {
    write(
        to,
        what,
        Board::over(with_blank(M95512, blank), zeros()),
        &[WRITE, 0, 0, 0xff, 0xff, 0xff],
    )?;
    Ok(())
}

fn wrong_numbers(to: &mut impl Write) -> io::Result<()> {
    lost(to, b"blank: 0 before, three go", 0)?;
    lost(to, b"blank: 2 before, three go", 2)?;
    lost(to, b"blank: 100 before, three go", 100)?;
    gained(to, b"blank: 65536 before, three come", 65536)?;
    gained(to, b"blank: 65534 before, three come", 65534)?;
    gained(to, b"blank: 100 before, three come", 100)
}

// ---- numbers above the size

// The number of a clock reading's outcome, and the number of blank cells then.
fn read(to: &mut impl Write, what: &[u8], part: u8, blank: u32) -> io::Result<()> {
    let mut board = Board::over(with_blank(part, blank), blanks());
    say(to, what, board.read(1))?;
    say(to, b"  blank cells", board.core.blank)
}

fn ranges(to: &mut impl Write) -> io::Result<()> {
    read(to, b"blank: 65536 of 65536 cells", M95512, 65536)?;
    read(to, b"blank: 65537 of 65536 cells", M95512, 65537)?;
    read(to, b"blank: M95M01, 131072 of 131072", M95M01, 131072)?;
    read(to, b"blank: M95M01, 131073 of 131072", M95M01, 131073)
}

pub(crate) fn all(to: &mut impl Write) -> io::Result<()> {
    deliveries(to)?;
    powers(to)?;
    powers_refused(to)?;
    small_cycles(to)?;
    large_cycles(to)?;
    identification_cycle(to)?;
    wrong_numbers(to)?;
    ranges(to)
}
