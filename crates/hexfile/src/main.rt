// Makes a HEX text of a raw image, and a raw image of a HEX text. `--help` says how.
//
// The result is written to a file beside the one asked for, which then takes its name: nobody sees half of it there.
#![tactic(auto)]

ghost use Rattle.std.specs.Prelude.{◌≡◌, ◌≤◌, length};
ghost use Rattle.std.specs.Char.{IsAsciiAlphanumeric};

use chip::Core;
use codes::M95512;
use console::{Tell, WORD, fail, file_name, is_word, word, zeros};
use intel_hex::{IMAGE_SIZE, TEXT_SIZE};
use std::env::Env;
use std::fs::{OpenFile, OpenOptions, Permissions};
use std::io::{Error, ErrorKind, Read, Write};
use std::os::unix::fs::{OpenOptionsExt, PermissionsExt};
use std::random::RandomSource;
use std::rt::Files;
use std::{fs, io};

// The longest text that is read.
const MOST: usize = 1048576;

// An image with every byte FFh.
fn blank() -> [u8; IMAGE_SIZE]
    ensures { 65536 ≡ length result }
{
    [255; IMAGE_SIZE]
}

// ---- messages

// hexfile: NAME: what is wrong
fn complain(rt: &impl Tell, name: &[u8], what: &[u8]) {
    rt.tell(b"hexfile: ");
    rt.tell(name);
    rt.tell(what);
}

fn help(rt: &impl Print) -> io::Result<()> {
    rt.write_all(
        b"hexfile out IMAGE TEXT         makes a HEX text of a raw image of 65,536 bytes\n",
    )?;
    rt.write_all(
        b"hexfile in TEXT IMAGE          makes a raw image of a HEX text, over a blank one (every byte FFh)\n",
    )?;
    rt.write_all(
        b"hexfile in TEXT IMAGE OVER     the same, over the image OVER: cells that no record names keep its bytes\n",
    )?;
    rt.write_all(b"The result - is standard output. A file is there whole or not at all.\n")?;
    rt.write_all(
        b"A text has records of type 00 and 0 to 255 bytes, upper case, each with LF at its end, then :00000001FF.\n",
    )?;
    rt.write_all(
        b"It has at most 1,048,576 bytes. What is wrong is said on standard error, with the number of the bad line.\n",
    )
}

// ---- files

// Nothing is left to read; else says why not: the file is too long, or cannot be read.
fn at_end(rt: &impl Tell, file: &mut impl Read, name: &[u8], too_long: &[u8]) -> bool {
    let mut one = [0u8; 1];
    match file.read(&mut one) {
        Ok(0) => true,
        Ok(_) => {
            complain(rt, name, too_long);
            false
        }
        Err(error) => {
            fail(rt, name, error);
            false
        }
    }
}

// Reads until there is no room, the file ends or a read fails, and answers how many bytes it read.
fn read_full(file: &mut impl Read, bytes: &mut [u8]) -> usize
    ensures { result ≤ length bytes.new }
{
    let mut done = 0;
    // Stays a while: a read takes as many bytes as it likes.
    while done < bytes.len() {
        match file.read(&mut bytes[done..]) {
            Ok(n) if n > 0 => done += n,
            _ => return done,
        }
    }
    done
}

// Reads a whole file, and answers its bytes; where it cannot, says why.
fn read_file<'a, R: Files + Tell>(
    rt: &R,
    name: &[u8],
    room: &'a mut [u8],
    too_long: &[u8],
) -> Option<&'a [u8]> {
    match console::open(rt, name) {
        Ok(mut file) => {
            let n = read_full(&mut file, room);
            if at_end(rt, &mut file, name, too_long) {
                return Some(&room[..n]);
            }
        }
        Err(error) => fail(rt, name, error),
    }
    None
}

// Whether it could be read whole, and has an image's length.
fn read_image<R: Files + Tell>(rt: &R, name: &[u8], image: &mut [u8; IMAGE_SIZE]) -> bool {
    let Some(bytes) = read_file(rt, name, image, b": too long: an image has 65,536 bytes\n") else {
        return false;
    };
    if bytes.len() != IMAGE_SIZE {
        complain(rt, name, b": an image has 65,536 bytes\n");
        return false;
    }
    true
}

// Writes all, to the disk too.
fn fill(file: &mut (impl Write + OpenFile), bytes: &[u8]) -> io::Result<()> {
    file.write_all(bytes)?;
    file.set_permissions(Permissions::from_mode(0o644))?;
    file.sync_all()
}

// A letter or a digit.
fn letter(byte: u8) -> char
    ensures { IsAsciiAlphanumeric result }
{
    char::from(match byte % 62 {
        n @ 0..=25 => b'A' + n,
        n @ 26..=51 => b'a' + (n - 26),
        n => b'0' + (n - 52),
    })
}

// The name, a dot and six letters and digits by chance.
fn name_beside<R: RandomSource + Alloc>(rt: &R, name: &str) -> io::Result<String<R::A>> {
    let mut chance = [0u8; 6];
    rt.fill_bytes(&mut chance)?;
    let [a, b, c, d, e, f] = chance.map(letter);
    Ok(format!(in rt.alloc(); "{name}.{a}{b}{c}{d}{e}{f}")?)
}

// Creates a file that only its owner may read and write. It is there with that very name, or nothing is.
fn create<R: Files>(rt: &R, name: &str) -> io::Result<R::File> {
    let mut how = OpenOptions::new();
    how.read(true).write(true).create_new(true).mode(0o600);
    how.open(rt, name)
}

// How many names are tried, where others have taken them.
const TRIES: u32 = 238328;

// The system's number for a name that is taken.
const EEXIST: i32 = 17;

// A new file beside the one of that name, and what it is called.
fn create_beside<R: Files + RandomSource + Alloc>(
    rt: &R,
    name: &str,
) -> io::Result<(R::File, String<R::A>)> {
    for _ in 0..TRIES {
        let beside = name_beside(rt, name)?;
        match create(rt, beside.as_str()) {
            Ok(file) => return Ok((file, beside)),
            Err(error) if error.kind() == ErrorKind::AlreadyExists => {}
            Err(error) => return Err(error),
        }
    }
    Err(Error::from_raw_os_error(EEXIST))
}

// Fills the file, and gives it the name.
fn fill_and_rename<R: Files>(
    rt: &R,
    file: R::File,
    beside: &str,
    name: &str,
    bytes: &[u8],
) -> io::Result<()> {
    let mut open = file;
    fill(&mut open, bytes)?;
    drop(open);
    fs::rename(rt, beside, name)
}

// Writes a new file and gives it the name; where that fails, says why, and the new file is gone again.
fn put_file<R: Files + RandomSource + Tell + Alloc>(rt: &R, name: &str, bytes: &[u8]) {
    match create_beside(rt, name) {
        Ok((file, beside)) => {
            if let Err(error) = fill_and_rename(rt, file, beside.as_str(), name, bytes) {
                fail(rt, name.as_bytes(), error);
                let _ = fs::remove_file(rt, beside.as_str());
            }
        }
        Err(error) => fail(rt, name.as_bytes(), error),
    }
}

fn put<R: Files + RandomSource + Print + Tell + Alloc>(rt: &R, name: &[u8], bytes: &[u8]) {
    if name == b"-".as_slice() {
        if let Err(error) = rt.write_all(bytes) {
            fail(rt, b"standard output", error);
        }
        return;
    }
    match file_name(name) {
        Ok(text) => put_file(rt, text, bytes),
        Err(error) => fail(rt, name, error),
    }
}

// ---- out and in

fn out<R: Files + RandomSource + Print + Tell + Alloc>(rt: &R, image: &[u8], text: &[u8]) {
    let mut memory = blank();
    if !read_image(rt, image, &mut memory) {
        return;
    }
    let mut room = zeros::<TEXT_SIZE>();
    if intel_hex::export(Core::delivered(M95512), &memory, &mut room).is_ok() {
        put(rt, text, &room);
    }
}

fn bad(rt: &impl Tell, name: &[u8], line: usize) {
    complain(rt, name, b": line ");
    let _ = eprint!(rt; "{line}");
    rt.tell(b" is bad\n");
}

// The text over the image in memory.
fn over<R: Files + RandomSource + Print + Tell + Alloc>(
    rt: &R,
    name: &[u8],
    memory: &mut [u8],
    text: &[u8],
    image: &[u8],
) {
    let line = intel_hex::bad_line(text);
    if line != 0 {
        bad(rt, name, line);
        return;
    }
    intel_hex::import(Core::delivered(M95512), memory, text);
    put(rt, image, memory);
}

fn read_in<R: Files + RandomSource + Print + Tell + Alloc>(
    rt: &R,
    name: &[u8],
    memory: &mut [u8],
    image: &[u8],
) {
    let mut text = zeros::<MOST>();
    let too_long = b": too long: a text has at most 1,048,576 bytes\n";
    if let Some(bytes) = read_file(rt, name, &mut text, too_long) {
        over(rt, name, memory, bytes, image);
    }
}

fn in_blank<R: Files + RandomSource + Print + Tell + Alloc>(rt: &R, text: &[u8], image: &[u8]) {
    let mut memory = blank();
    read_in(rt, text, &mut memory, image);
}

fn in_over<R: Files + RandomSource + Print + Tell + Alloc>(
    rt: &R,
    text: &[u8],
    image: &[u8],
    old: &[u8],
) {
    let mut memory = blank();
    if read_image(rt, old, &mut memory) {
        read_in(rt, text, &mut memory, image);
    }
}

// ---- words

// A word of over 4,096 bytes counts as empty, and names no file.
fn run<R: Env + Files + RandomSource + Print + Tell + Alloc>(rt: &R) {
    let mut first = zeros::<WORD>();
    let mut second = zeros::<WORD>();
    let mut third = zeros::<WORD>();
    let a = word(rt, 2, &mut first);
    let b = word(rt, 3, &mut second);
    let c = word(rt, 4, &mut third);
    let count = console::count(rt);
    if count == 4 && is_word(rt, 1, b"out") {
        return out(rt, &first[..a], &second[..b]);
    }
    if count == 4 && is_word(rt, 1, b"in") {
        return in_blank(rt, &first[..a], &second[..b]);
    }
    if count == 5 && is_word(rt, 1, b"in") {
        return in_over(rt, &first[..a], &second[..b], &third[..c]);
    }
    rt.tell(b"hexfile: `hexfile --help` says how\n");
}

fn main(rt: HostRuntime) -> io::Result<()> {
    if is_word(&rt, 1, b"--help") {
        return help(&rt);
    }
    run(&rt);
    Ok(())
}
