// Messages on standard error.
ghost use Rattle.std.specs.Io.{StartsWith};

use std::io::Write;
use std::{io, str};

// Standard error, which takes bytes. Where it takes no more, nobody is told.
pub trait Tell: Eprint {
    fn tell(&self, bytes: &[u8]);
}

impl Tell for HostRuntime {
    fn tell(&self, bytes: &[u8]) {
        let _ = Print::write_all(&self.stderr(), bytes);
    }
}

// The text of an error, without the number that std puts after it.
fn without_number(text: &str) -> &str
    ensures { StartsWith text.now result.now }
{
    match text.split_once(" (os error ") {
        Some((before, _)) => before,
        None => text,
    }
}

// Puts an error's text at the start of room, and answers its length.
fn put_error(room: &mut [u8], error: io::Error) -> usize {
    let size = room.len();
    let mut rest = room;
    let _ = write!(rest, "{error}");
    size.saturating_sub(rest.len())
}

// A line: what failed, a colon and why.
pub fn fail(rt: &impl Tell, what: &[u8], error: io::Error) {
    let mut room = [0u8; 1024];
    let n = put_error(&mut room, error).min(1024);
    rt.tell(what);
    rt.tell(b": ");
    match str::from_utf8(&room[..n]) {
        Ok(text) => rt.tell(without_number(text).as_bytes()),
        Err(_) => rt.tell(&room[..n]),
    }
    rt.tell(b"\n");
}
