// Plays a trace, on the part that `--part` names or on the M95512: the text from standard input, or from the file that
// an argument names, and its output to standard output. `--help` says how.
//
// The text is read in chunks of 6,551 bytes, so that what a chunk puts out fits 65,536; nothing else is kept of it.
#![tactic(auto)]

ghost use Rattle.std.specs.Prelude.{◌≡◌, ◌≤◌, length};

use codes::{M95M01, M95512, M95512D, page_of, size_of};
use console::{Tell, WORD, fail, is_word};
use player::Player;
use std::env::{Env, FillError};
use std::io;
use std::io::Read;
use std::rt::Files;

// Writes bytes out, or says why it cannot.
fn put<R: Print + Tell>(rt: &R, bytes: &[u8]) -> bool {
    match rt.write_all(bytes) {
        Ok(()) => true,
        Err(error) => {
            fail(rt, b"standard output", error);
            false
        }
    }
}

// The end of the text. A read that failed never comes here.
fn close<R: Print + Tell>(rt: &R, player: Player, out: &mut [u8]) {
    let fed = trace::finish(player, out);
    put(rt, &out[..fed.written]);
}

// One chunk: it is read, fed and written. The player that follows, or none at the end. An output that takes no more
// ends the program at once.
fn turn<R: Print + Tell>(
    rt: &R,
    from: &mut impl Read,
    name: &[u8],
    player: Player,
    memory: &mut [u8],
    identification: &mut [u8],
    text: &mut [u8],
    out: &mut [u8],
) -> Option<Player> {
    match from.read(text) {
        Err(error) => {
            fail(rt, name, error);
            None
        }
        Ok(0) => {
            close(rt, player, out);
            None
        }
        Ok(n) => {
            let fed = trace::feed(player, memory, identification, &text[..n], out);
            let more = put(rt, &out[..fed.written]);
            more.then_some(fed.player)
        }
    }
}

// The text chunk by chunk. The turns count up to a number that no run reaches.
fn turns<R: Print + Tell>(
    rt: &R,
    part: u8,
    from: &mut impl Read,
    name: &[u8],
    memory: &mut [u8],
    identification: &mut [u8],
    text: &mut [u8],
    out: &mut [u8],
) {
    let mut player = player::start(part);
    for _ in 0..u64::MAX {
        match turn(rt, from, name, player, memory, identification, text, out) {
            Some(next) => player = next,
            None => return,
        }
    }
}

// As many cells are lent as the part has.
fn play<R: Print + Tell>(rt: &R, part: u8, from: &mut impl Read, name: &[u8]) {
    let size = size_of(part);
    let page = page_of(part);
    let mut memory = player::memory();
    let mut identification = player::identification(part);
    let mut text = [0; 6551];
    let mut out = console::zeros::<65536>();
    turns(
        rt,
        part,
        from,
        name,
        &mut memory[..size],
        &mut identification[..page],
        &mut text,
        &mut out,
    );
}

fn play_file<R: Files + Print + Tell>(rt: &R, part: u8, path: &[u8]) {
    match console::open(rt, path) {
        Ok(mut file) => play(rt, part, &mut file, path),
        Err(error) => fail(rt, path, error),
    }
}

// The system's number for a name that is too long.
const ENAMETOOLONG: i32 = 36;

// The file that the word at a place names, or standard input where there is no such word.
fn play_word<R: Env + Files + Input + Print + Tell>(rt: &R, part: u8, at: usize) {
    let mut path = console::zeros::<WORD>();
    match rt.arg(at, &mut path) {
        Ok(n) => play_file(rt, part, &path[..n]),
        Err(FillError::NotPresent) => play(rt, part, &mut rt.reader(), b"standard input"),
        Err(FillError::TooLong) => fail(
            rt,
            b"the file name",
            io::Error::from_raw_os_error(ENAMETOOLONG),
        ),
    }
}

// ---- words

// The word after --part is the part's name, exactly, and the one after that the file's.
fn play_part<R: Env + Files + Input + Print + Tell>(rt: &R) {
    if is_word(rt, 2, b"M95512") {
        return play_word(rt, M95512, 3);
    }
    if is_word(rt, 2, b"M95512-D") {
        return play_word(rt, M95512D, 3);
    }
    if is_word(rt, 2, b"M95M01") {
        return play_word(rt, M95M01, 3);
    }
    rt.tell(b"play: after --part comes M95512, M95512-D or M95M01\n");
}

fn help<R: Print + Tell>(rt: &R) {
    put(
        rt,
        b"play [FILE]: plays a trace on the pin model of the M95512, from FILE or from standard input.\n",
    );
    put(
        rt,
        b"play --part PART [FILE]: the same on PART, which is M95512, M95512-D or M95M01.\n",
    );
    put(
        rt,
        b"A line is a name, a tab and a value: S, C, D, W or H with 0 or 1, T with a clock reading.\n",
    );
    put(
        rt,
        b"The device starts as delivered, cycle length 5000 microseconds (of the M95M01 4000), reading 0.\n",
    );
    put(
        rt,
        b"Put out are a header, then for each line its number and Q after it: 0, 1 or Z.\n",
    );
    put(rt, b"A bad line is put out as bad, and ends it.\n");
}

fn main(rt: HostRuntime) {
    if is_word(&rt, 1, b"--help") {
        return help(&rt);
    }
    if is_word(&rt, 1, b"--part") {
        return play_part(&rt);
    }
    if is_word(&rt, 2, b"--part") {
        return rt.tell(b"play: --part stands before the file\n");
    }
    play_word(&rt, M95512, 1);
}
