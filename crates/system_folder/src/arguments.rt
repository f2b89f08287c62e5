//! The arguments of the program.

use std::env::{Env, FillError};
use std::io::{self, Error, ErrorKind};
use std::str;

/// How long an argument is tried to be at first, in bytes.
const FIRST_LENGTH: usize = 4096;

/// How often this length is doubled at most.
const MOST_DOUBLINGS: u32 = 16;

/// The arguments after the program's name.
#[derive(Drop)]
pub struct Arguments {
    /// Each argument. In one that isn't UTF-8, `\u{fffd}` stands for what isn't, and stands at its
    /// end as often as another argument is the same text.
    pub words: Vec<String>,
    /// Those of the words that stand for an argument that isn't UTF-8.
    pub garbled: Vec<String>,
}

/// Returns the arguments after the program's name.
///
/// # Errors
///
/// An argument is too long, or memory ran out.
pub fn read_arguments(rt: &HostRuntime) -> io::Result<Arguments> {
    let mut words = Vec::new(rt.alloc());
    let mut garbled = Vec::new(rt.alloc());
    for index in 1..usize::MAX {
        let Some(bytes) = argument_bytes(rt, index)? else {
            break;
        };
        let mut word = String::from_utf8_lossy(rt.alloc(), &bytes)?;
        if str::from_utf8(&bytes).is_err() {
            make_distinct(rt, &mut word)?;
            garbled.push(word.clone()?)?;
        }
        words.push(word)?;
    }
    Ok(Arguments { words, garbled })
}

/// Makes a word another one than each argument is.
fn make_distinct(rt: &HostRuntime, word: &mut String) -> io::Result<()> {
    for _ in 0..usize::MAX {
        if !is_argument(rt, word.as_str())? {
            break;
        }
        word.push('\u{fffd}')?;
    }
    Ok(())
}

/// Whether a word is an argument.
fn is_argument(rt: &HostRuntime, word: &str) -> io::Result<bool> {
    for index in 1..usize::MAX {
        match argument_bytes(rt, index)? {
            Some(bytes) if bytes.as_slice() == word.as_bytes() => return Ok(true),
            Some(_) => {}
            None => break,
        }
    }
    Ok(false)
}

/// Returns the bytes of the argument with this number.
fn argument_bytes(rt: &HostRuntime, index: usize) -> io::Result<Option<Vec<u8>>> {
    let mut length = FIRST_LENGTH;
    for _ in 0..MOST_DOUBLINGS {
        let mut bytes = vec![in rt.alloc(); 0u8; length]?;
        match rt.arg(index, &mut bytes) {
            Ok(count) => {
                bytes.truncate(count);
                return Ok(Some(bytes));
            }
            Err(FillError::NotPresent) => return Ok(None),
            Err(FillError::TooLong) => length = length.saturating_mul(2),
        }
    }
    Err(Error::new(ErrorKind::InvalidInput, "an argument is too long"))
}
