// Texts of every kind through the trace library: an empty one, good ones, each kind of bad line, one text cut in many
// ways, one on the M95M01, a million lines and one more, and what is refused. The gate compares what it writes with the
// file stdout, which an independent player made from the rules (the refusals by hand).
#![tactic(auto)]

ghost use Rattle.std.specs.Prelude.{◌≡◌, ◌<◌, ◌≤◌, length};

use codes::{M95M01, M95512, Numbered, page_of, size_of};
use console::{say, zeros};
use player::Player;
use std::io;
use std::io::Write;

// A title has its LF.
fn title(to: &mut impl Write, what: &[u8]) -> io::Result<()> {
    to.write_all(b"-- ")?;
    to.write_all(what)
}

// A chunk is fed, and what it puts out is written.
fn fed(
    to: &mut impl Write,
    player: Player,
    memory: &mut [u8],
    identification: &mut [u8],
    text: &[u8],
    out: &mut [u8],
) -> io::Result<Player> {
    let f = trace::feed(player, memory, identification, text, out);
    to.write_all(&out[..f.written])?;
    Ok(f.player)
}

// The end of a text, and its number: 0, or 11 for a bad line.
fn ended(to: &mut impl Write, player: Player, out: &mut [u8]) -> io::Result<()> {
    let f = trace::finish(player, out);
    to.write_all(&out[..f.written])?;
    say(to, b"number", u64::from(f.answer.number()))
}

// A text in chunks of so many bytes, one at least, and its end.
fn play(
    to: &mut impl Write,
    part: u8,
    text: &[u8],
    size: usize,
    memory: &mut [u8],
    page: &mut [u8],
    out: &mut [u8],
) -> io::Result<()> {
    let mut player = player::start(part);
    for chunk in text.chunks(size.max(1)) {
        player = fed(to, player, memory, page, chunk, out)?;
    }
    ended(to, player, out)
}

// The same, from a part as delivered.
fn play_on(to: &mut impl Write, part: u8, text: &[u8], size: usize) -> io::Result<()> {
    let m = size_of(part);
    let n = page_of(part);
    let mut memory = player::memory();
    let mut page = player::identification(part);
    let mut out = zeros::<65536>();
    play(
        to,
        part,
        text,
        size,
        &mut memory[..m],
        &mut page[..n],
        &mut out,
    )
}

// The length of the first line, with its LF where it has one.
fn first_line(bytes: &[u8]) -> usize
    ensures { result ≤ length bytes.now }
{
    match bytes.iter().position(|byte| *byte == b'\n') {
        Some(i) => i + 1,
        None => bytes.len(),
    }
}

// A line that is the title, and the text.
fn tell_on(to: &mut impl Write, part: u8, titled: &[u8], size: usize) -> io::Result<()> {
    let n = first_line(titled);
    title(to, &titled[..n])?;
    play_on(to, part, &titled[n..], size)
}

fn tell(to: &mut impl Write, titled: &[u8]) -> io::Result<()> {
    tell_on(to, M95512, titled, 64)
}

fn good(to: &mut impl Write) -> io::Result<()> {
    tell(to, b"an empty text\n")?;
    tell(to, b"the example of the rules\nS\t0\nC\t1\nX\t1\n")?;
    tell(
        to,
        b"every name, the first and the last reading\nS\t0\nC\t1\nD\t1\nW\t0\nH\t0\nT\t0\nT\t9\nT\t10\nT\t4294967295\n",
    )
}

// Bad ends of a line, after a good one where it is not the first.
fn bad_ends(to: &mut impl Write) -> io::Result<()> {
    tell(to, b"CR LF\nS\t0\r\n")?;
    tell(to, b"no LF at the end\nS\t0\nC\t1")?;
    tell(to, b"no LF after a reading\nS\t0\nT\t12")?;
    tell(to, b"a name alone at the end\nS\t0\nC")?;
    tell(to, b"an empty line\nS\t0\n\nC\t1\n")?;
    tell(to, b"an empty first line\n\n")
}

// Bad fields: what stands between the name and the value.
fn bad_fields(to: &mut impl Write) -> io::Result<()> {
    tell(to, b"a space for the tab\nS\t0\nC 1\n")?;
    tell(to, b"two tabs\nS\t0\nC\t\t1\n")?;
    tell(to, b"no tab\nS\t0\nC1\n")?;
    tell(to, b"a tab after the level\nS\t0\nC\t1\t\n")?;
    tell(to, b"S with 2\nS\t2\n")?;
    tell(to, b"S with 00\nS\t00\n")?;
    tell(to, b"S with nothing\nS\t\n")
}

// Bad readings.
fn bad_readings(to: &mut impl Write) -> io::Result<()> {
    tell(to, b"T with nothing\nT\t\n")?;
    tell(to, b"T with a minus\nS\t0\nT\t-1\n")?;
    tell(to, b"T with a plus\nS\t0\nT\t+1\n")?;
    tell(to, b"a leading zero\nS\t0\nT\t01\n")?;
    tell(to, b"two zeros\nS\t0\nT\t00\n")?;
    tell(to, b"4294967296\nS\t0\nT\t4294967296\n")?;
    tell(to, b"eleven digits\nS\t0\nT\t10000000000\n")?;
    tell(to, b"twenty digits\nS\t0\nT\t18446744073709551617\n")?;
    tell(to, b"a letter in a reading\nS\t0\nT\t1a\n")
}

// Bytes that no line has, and bad names.
fn bad_bytes(to: &mut impl Write) -> io::Result<()> {
    tell(to, b"a NUL byte\nS\t0\n\x00\n")?;
    tell(to, b"a NUL after the level\nS\t0\nC\t1\x00\n")?;
    tell(to, b"bytes above 127\nS\t0\n\xc3\xa9\t1\n")?;
    tell(to, b"a level above 127\nS\t0\nC\t\xb1\n")?;
    tell(to, b"a small letter\ns\t0\n")?;
    tell(to, b"a longer name\nHOLD\t0\n")?;
    tell(to, b"a bad first line\nno\n")?;
    tell(
        to,
        b"a bad line after half a frame\nS\t0\nD\t0\nC\t1\nC\t0\nC\t1\nC\t0\nQ\t1\nC\t1\n",
    )
}

// An RDSR frame with a pause in its data byte, then readings, then a bad line with more after it.
fn cut(to: &mut impl Write, size: usize) -> io::Result<()> {
    say(to, b"cut after so many bytes", size as u64)?;
    tell_on(
        to,
        M95512,
        b"a frame\nS\t0\nD\t0\nC\t1\nC\t0\nD\t0\nC\t1\nC\t0\nD\t0\nC\t1\nC\t0\nD\t0\nC\t1\nC\t0\nD\t0\nC\t1\nC\t0\nD\t1\nC\t1\nC\t0\nD\t0\nC\t1\nC\t0\nD\t1\nC\t1\nC\t0\nC\t1\nC\t0\nC\t1\nC\t0\nC\t1\nC\t0\nH\t0\nC\t1\nC\t0\nT\t4294967290\nH\t1\nC\t1\nC\t0\nC\t1\nC\t0\nC\t1\nC\t0\nC\t1\nC\t0\nC\t1\nC\t0\nS\t1\nT\t10\nW\t0\nT\t01\nS\t0\n",
        size,
    )
}

// The M95M01: a WRITE of 5Ah to cell 1FFFFh, whose first address byte is FFh. A microsecond before its cycle ends RDSR
// shows 03h; then a READ shows the cell.
fn large(to: &mut impl Write) -> io::Result<()> {
    tell_on(
        to,
        M95M01,
        b"the M95M01\nS\t0\nC\t1\nC\t0\nC\t1\nC\t0\nC\t1\nC\t0\nC\t1\nC\t0\nC\t1\nC\t0\nD\t1\nC\t1\nC\t0\nC\t1\nC\t0\nD\t0\nC\t1\n\
        C\t0\nS\t1\n\
        S\t0\nC\t1\nC\t0\nC\t1\nC\t0\nC\t1\nC\t0\nC\t1\nC\t0\nC\t1\nC\t0\nC\t1\nC\t0\nD\t1\nC\t1\nC\t0\nD\t0\nC\t1\n\
        C\t0\nD\t1\nC\t1\nC\t0\nC\t1\nC\t0\nC\t1\nC\t0\nC\t1\nC\t0\nC\t1\nC\t0\nC\t1\nC\t0\nC\t1\nC\t0\nC\t1\nC\t0\n\
        C\t1\nC\t0\nC\t1\nC\t0\nC\t1\nC\t0\nC\t1\nC\t0\nC\t1\nC\t0\nC\t1\nC\t0\nC\t1\nC\t0\nC\t1\nC\t0\nC\t1\nC\t0\n\
        C\t1\nC\t0\nC\t1\nC\t0\nC\t1\nC\t0\nC\t1\nC\t0\nC\t1\nC\t0\nC\t1\nC\t0\nC\t1\nC\t0\nD\t0\nC\t1\nC\t0\nD\t1\n\
        C\t1\nC\t0\nD\t0\nC\t1\nC\t0\nD\t1\nC\t1\nC\t0\nC\t1\nC\t0\nD\t0\nC\t1\nC\t0\nD\t1\nC\t1\nC\t0\nD\t0\nC\t1\n\
        C\t0\nS\t1\n\
        T\t3999\nS\t0\nC\t1\nC\t0\nC\t1\nC\t0\nC\t1\nC\t0\nC\t1\nC\t0\nC\t1\nC\t0\nD\t1\nC\t1\nC\t0\nD\t0\nC\t1\n\
        C\t0\nD\t1\nC\t1\nC\t0\nC\t1\nC\t0\nC\t1\nC\t0\nC\t1\nC\t0\nC\t1\nC\t0\nC\t1\nC\t0\nC\t1\nC\t0\nC\t1\nC\t0\n\
        C\t1\nC\t0\nS\t1\n\
        T\t4000\nS\t0\nD\t0\nC\t1\nC\t0\nC\t1\nC\t0\nC\t1\nC\t0\nC\t1\nC\t0\nC\t1\nC\t0\nC\t1\nC\t0\nD\t1\nC\t1\n\
        C\t0\nC\t1\nC\t0\nD\t0\nC\t1\nC\t0\nC\t1\nC\t0\nC\t1\nC\t0\nC\t1\nC\t0\nC\t1\nC\t0\nC\t1\nC\t0\nC\t1\nC\t0\n\
        D\t1\nC\t1\nC\t0\nC\t1\nC\t0\nC\t1\nC\t0\nC\t1\nC\t0\nC\t1\nC\t0\nC\t1\nC\t0\nC\t1\nC\t0\nC\t1\nC\t0\nC\t1\n\
        C\t0\nC\t1\nC\t0\nC\t1\nC\t0\nC\t1\nC\t0\nC\t1\nC\t0\nC\t1\nC\t0\nC\t1\nC\t0\nC\t1\nC\t0\nC\t1\nC\t0\nC\t1\n\
        C\t0\nC\t1\nC\t0\nC\t1\nC\t0\nC\t1\nC\t0\nC\t1\nC\t0\nC\t1\nC\t0\nC\t1\nC\t0\nC\t1\nC\t0\nS\t1\n",
        64,
    )
}

// ---- long texts and refusals. None of them shows or changes a cell: any bytes serve, as many as the M95512 has

// More text for a player.
fn taken(to: &mut impl Write, player: Player, text: &[u8]) -> io::Result<Player> {
    let mut memory = zeros::<65536>();
    let mut page = [0u8; 128];
    let mut out = zeros::<65536>();
    fed(to, player, &mut memory, &mut page, text, &mut out)
}

fn finished(to: &mut impl Write, player: Player) -> io::Result<()> {
    let mut out = zeros::<65536>();
    ended(to, player, &mut out)
}

fn long_line(to: &mut impl Write) -> io::Result<()> {
    title(to, b"a line of a megabyte\n")?;
    let digits = [49u8; 4096];
    let mut player = taken(to, player::start(M95512), b"S\t0\nT\t")?;
    for _ in 0..256 {
        player = taken(to, player, &digits)?;
    }
    let last = taken(to, player, b"\n")?;
    finished(to, last)
}

// ---- a million lines, made here: RDSR frames of 42 lines. Their output is counted and summed.

#[derive(Clone, Copy)]
struct Summed {
    player: Player,
    bytes: u64,
    sum: u64,
}

fn folded(sum: u64, byte: u8) -> u64 {
    ((sum % 4294967291) * 31 + byte as u64) % 4294967291
}

fn sum_of(sum: u64, bytes: &[u8]) -> u64 {
    let mut s = sum;
    for byte in bytes {
        s = folded(s, *byte);
    }
    s
}

fn sum_chunk(
    before: Summed,
    memory: &mut [u8],
    identification: &mut [u8],
    text: &[u8],
    out: &mut [u8],
) -> Summed {
    let player = before.player;
    let f = trace::feed(player, memory, identification, text, out);
    let n = f.written;
    let next = f.player;
    Summed {
        player: next,
        bytes: std::num::wrapping_add_u64(before.bytes, n as u64),
        sum: sum_of(before.sum, &out[..n]),
    }
}

fn frames(text: &[u8], memory: &mut [u8], identification: &mut [u8], out: &mut [u8]) -> Summed {
    let mut so_far = Summed {
        player: player::start(M95512),
        bytes: 0,
        sum: 0,
    };
    for _ in 0..23809 {
        so_far = sum_chunk(so_far, memory, identification, text, out);
    }
    so_far
}

fn all_lines(to: &mut impl Write) -> io::Result<Player> {
    let mut memory = zeros::<65536>();
    let mut page = [0u8; 128];
    let mut out = zeros::<65536>();
    let most = frames(
        b"S\t0\nD\t0\nC\t1\nC\t0\nD\t0\nC\t1\nC\t0\nD\t0\nC\t1\nC\t0\nD\t0\nC\t1\nC\t0\nD\t0\nC\t1\nC\t0\nD\t1\nC\t1\nC\t0\nD\t0\nC\t1\nC\t0\nD\t1\nC\t1\nC\t0\nC\t1\nC\t0\nC\t1\nC\t0\nC\t1\nC\t0\nC\t1\nC\t0\nC\t1\nC\t0\nC\t1\nC\t0\nC\t1\nC\t0\nC\t1\nC\t0\nS\t1\n",
        &mut memory,
        &mut page,
        &mut out,
    );
    let all = sum_chunk(
        most,
        &mut memory,
        &mut page,
        b"S\t0\nD\t0\nC\t1\nC\t0\nD\t0\nC\t1\nC\t0\nD\t0\nC\t1\nC\t0\nD\t0\nC\t1\nC\t0\nD\t0\nC\t1\nC\t0\nD\t1\nC\t1\nC\t0\nD\t0\nC\t1\nC\t0\n",
        &mut out,
    );
    say(to, b"bytes", all.bytes)?;
    say(to, b"sum", all.sum)?;
    Ok(all.player)
}

// More text after the million lines.
fn more(to: &mut impl Write, what: &[u8], player: Player, text: &[u8]) -> io::Result<()> {
    title(to, what)?;
    let last = taken(to, player, text)?;
    finished(to, last)
}

fn million(to: &mut impl Write) -> io::Result<()> {
    title(to, b"a million lines\n")?;
    let player = all_lines(to)?;
    finished(to, player)?;
    more(to, b"and one more\n", player, b"C\t1\n")?;
    more(to, b"and one byte more\n", player, b"S")
}

// ---- what is refused, by its number, and that the first in the order decides: a chunk of four bytes, which asks for
// 59

// With a memory of so many bytes, and room for so many.
fn refused(
    to: &mut impl Write,
    what: &[u8],
    player: Player,
    size: usize,
    room: usize,
) -> io::Result<()> {
    let mut memory = zeros::<65536>();
    let mut page = [0u8; 128];
    let mut out = zeros::<65536>();
    let m = size.min(65536);
    let n = room.min(65536);
    let f = trace::feed(
        player,
        &mut memory[..m],
        &mut page,
        b"S\t0\n",
        &mut out[..n],
    );
    say(to, what, u64::from(f.answer.number()))
}

fn refused_end(to: &mut impl Write, what: &[u8], room: usize) -> io::Result<()> {
    let mut out = zeros::<65536>();
    let n = room.min(65536);
    let f = trace::finish(player::start(M95512), &mut out[..n]);
    say(to, what, u64::from(f.answer.number()))
}

// The M95512's memory and page, also lent to an M95M01.
fn refusals(to: &mut impl Write) -> io::Result<()> {
    let fresh = player::start(M95512);
    let large = player::start(M95M01);
    let mut broken = fresh;
    broken.headed = 2;
    title(to, b"refusals\n")?;
    refused(to, b"a memory of 64 bytes", fresh, 64, 65536)?;
    refused(to, b"and a flag of 2", broken, 64, 65536)?;
    refused(
        to,
        b"the M95M01, a memory of 65536 bytes",
        large,
        65536,
        65536,
    )?;
    refused(to, b"a flag of 2", broken, 65536, 65536)?;
    refused(to, b"and an output of 58 bytes", broken, 65536, 58)?;
    refused(to, b"an output of 58 bytes", fresh, 65536, 58)?;
    refused(to, b"an output of 59 bytes", fresh, 65536, 59)?;
    refused_end(to, b"the end, an output of 18 bytes", 18)?;
    refused_end(to, b"the end, an output of 19 bytes", 19)
}

fn main(rt: HostRuntime) -> io::Result<()> {
    let mut out = io::writer(&rt);
    good(&mut out)?;
    bad_ends(&mut out)?;
    bad_fields(&mut out)?;
    bad_readings(&mut out)?;
    bad_bytes(&mut out)?;
    cut(&mut out, 1)?;
    cut(&mut out, 2)?;
    cut(&mut out, 3)?;
    cut(&mut out, 4)?;
    cut(&mut out, 7)?;
    cut(&mut out, 64)?;
    cut(&mut out, 1000)?;
    large(&mut out)?;
    long_line(&mut out)?;
    million(&mut out)?;
    refusals(&mut out)
}
