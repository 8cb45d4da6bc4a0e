// Names of files, which are bytes, while std takes text.
ghost use Rattle.std.specs.Prelude.{◌≡◌, IfOk, IsUtf8, MatchResult};

use std::io::{Error, ErrorKind};
use std::rt::Files;
use std::{fs, io, str};

// A name as text; one that is not UTF-8 is an error.
pub fn file_name(name: &[u8]) -> io::Result<&str>
    ensures { MatchResult result (λ text. text.now ≡ name.now) (λ _. ¬ (IsUtf8 name.now)) }
{
    match str::from_utf8(name) {
        Ok(text) => Ok(text),
        Err(_) => Err(Error::new(ErrorKind::InvalidFilename, "file name is not UTF-8")),
    }
}

// Opens a file for reading.
pub fn open<R: Files>(rt: &R, name: &[u8]) -> io::Result<R::File>
    ensures { IfOk result (λ _. IsUtf8 name.now) }
{
    match file_name(name) {
        Ok(text) => fs::open(rt, text),
        Err(error) => Err(error),
    }
}
