use crate::{count, file_name, is_word, open, put_number, say, word, zeros};
use std::env::{Env, FillError};
use std::test::Fail;

#[test]
fn lines(rt: HostRuntime) -> Result<(), Fail> {
    let mut to = Vec::new(rt.alloc());
    say(&mut to, b"time left", 4000)?;
    put_number(&mut to, 0)?;
    assert_eq!(rt; to.as_slice(), b"time left\t4000\n\t0".as_slice());
    Ok(())
}

// A writer that takes three bytes and no more.
#[test]
fn full(rt: HostRuntime) -> Result<(), Fail> {
    let mut room = [0u8; 3];
    let mut to = room.as_mut_slice();
    assert!(rt; say(&mut to, b"ab", 7).is_err());
    assert!(rt; put_number(&mut to, 7).is_err());
    assert_eq!(rt; room, *b"ab\t");
    Ok(())
}

#[test]
fn own_name(rt: HostRuntime) -> Result<(), Fail> {
    let mut room = zeros::<4096>();
    let all = count(&rt);
    assert!(rt; all > 0);
    assert!(rt; word(&rt, 0, &mut room) > 0);
    assert_eq!(rt; word(&rt, all, &mut room), 0);
    assert!(rt; is_word(&rt, all, b""));
    Ok(())
}

// A program's words: a byte that is no text, an empty one, and one that no room is large enough for.
struct Odd;

impl Env for Odd {
    fn arg(&self, i: usize, buf: &mut [u8]) -> Result<usize, FillError> {
        match i {
            0 if buf.len() > 0 => {
                buf[0] = 255;
                Ok(1)
            }
            1 => Ok(0),
            0 | 2 => Err(FillError::TooLong),
            _ => Err(FillError::NotPresent),
        }
    }

    fn var(&self, _name: &str, _buf: &mut [u8]) -> Result<usize, FillError> {
        Err(FillError::NotPresent)
    }

    fn var_at(&self, _i: usize, _buf: &mut [u8]) -> Result<usize, FillError> {
        Err(FillError::NotPresent)
    }
}

#[test]
fn odd_words(rt: HostRuntime) -> Result<(), Fail> {
    assert_eq!(rt; count(&Odd), 3);
    assert!(rt; is_word(&Odd, 0, b"\xff"));
    assert!(rt; !is_word(&Odd, 0, b""));
    assert!(rt; is_word(&Odd, 1, b""));
    assert!(rt; is_word(&Odd, 2, b""));
    assert!(rt; is_word(&Odd, 3, b""));
    assert!(rt; !is_word(&Odd, 3, b"\xff"));
    Ok(())
}

#[test]
fn names(rt: HostRuntime) -> Result<(), Fail> {
    assert_eq!(rt; file_name(b"caf\xc3\xa9.bin")?, "café.bin");
    assert!(rt; file_name(b"caf\xe9.bin").is_err());
    assert!(rt; open(&rt, b"\xff").is_err());
    assert!(rt; open(&rt, b"/dev/null").is_ok());
    Ok(())
}
