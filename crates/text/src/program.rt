// What stands around a program's work: how it was called, what it is given, and what failed.
ghost use Rattle.std.specs.Prelude.{length, take};
ghost use Rattle.std.specs.Counts.{IsPrefixLen};
ghost use Rattle.std.specs.Io.KnownBytes.{Consumes};

use std::env::{Env, FillError};
use std::io;
use std::io::{Read, Write};

// Room for every message of the system's.
const MESSAGE: usize = 256;

// Whether it was called with an argument.
pub fn has_argument(rt: &impl Env) -> bool {
    let mut start = [0u8; 1];
    !matches!(rt.arg(1, &mut start), Err(FillError::NotPresent))
}

// Reads until the buffer is full, the input ends or a read fails, and returns how many bytes stand at the buffer's front.
pub fn read_full<R: Read>(input: &mut R, buf: &mut [u8]) -> usize
    ensures prefix_len { IsPrefixLen result buf.new }
    ensures bytes { Consumes (R.remaining input.old) (R.remaining input.new) (take result buf.new) }
{
    let mut done = 0;
    // A read takes as many bytes as the system gives.
    while done < buf.len() {
        match input.read(&mut buf[done..]) {
            Ok(0) | Err(_) => break,
            Ok(n) => done += n,
        }
    }
    done
}

// A line on standard error: who failed, and why.
pub fn fail(rt: &impl Eprint, who: &str, error: io::Error) {
    let mut message = [0u8; MESSAGE];
    let mut rest: &mut [u8] = &mut message;
    let _ = write!(rest, "{error}");
    let _ = match std::str::from_utf8(&message) {
        Ok(text) => eprintln!(rt; "{who}: {}", words(text)),
        Err(_) => eprintln!(rt; "{who}"),
    };
}

// The system's own words: without the number that std puts after them, and the zeros that are left.
fn words(text: &str) -> &str {
    match text.split_once(" (os error ") {
        Some((own, _)) => own,
        None => text.trim_end_matches('\0'),
    }
}
