//! What comes into the program: its arguments and its files, each in a buffer of the caller's.
ghost use Rattle.std.specs.Prelude.{◌≤◌, length, IfSome, IfOk};

use reader::MOST_BYTES;
use std::env::FillError;
use std::fs::Files;
use std::io::Read;
use std::rt::Env;
use std::{fs, io};

/// How long a path may be.
pub const PATH: usize = 4096;

/// How much of a file is read: one byte more than a file may have, so that an over-long file is seen.
pub const BUFFER: usize = MOST_BYTES + 1;

/// The argument's text in the buffer; none where there is no such argument, or it is no text or too long.
pub fn argument<'a, R: Env>(rt: &R, index: usize, buffer: &'a mut [u8; PATH]) -> Option<&'a str> {
    let len = rt.arg(index, buffer).ok()?;
    std::str::from_utf8(&buffer[0..len]).ok()
}

/// How many arguments there are, readable or not; no more than `most` are counted.
pub fn argument_count<R: Env>(rt: &R, most: usize) -> usize
    ensures { result ≤ most }
{
    (0..most)
        .position(|index| matches!(rt.arg(index + 1, &mut [0; 1]), Err(FillError::NotPresent)))
        .unwrap_or(most)
}

// How many bytes of the file are now in the buffer.
fn fill<R: Files>(rt: &R, path: &str, buffer: &mut [u8; BUFFER]) -> io::Result<usize>
    ensures { IfOk result (λ n. n ≤ 65537) }
{
    let mut file = fs::open(rt, path)?;
    let mut len = 0;
    // By hand: what reads to a file's end in the library fills a Vec, and nothing is allocated here.
    while len < buffer.len() {
        let more = file.read(&mut buffer[len..])?;
        if more == 0 {
            break;
        }
        len += more;
    }
    Ok(len)
}

/// The bytes of the file, or its first 65,537 where it has more, in the buffer; none where it cannot be read, as a folder cannot.
pub fn read_file<'a, R: Files>(rt: &R, path: &str, buffer: &'a mut [u8; BUFFER]) -> Option<&'a [u8]>
    ensures { IfSome result (λ bytes. length bytes.now ≤ 65537) }
{
    let len = fill(rt, path, buffer).ok()?;
    Some(&buffer[0..len])
}
