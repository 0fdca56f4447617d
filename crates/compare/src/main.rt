// compare: plays the model's stored cases, from standard input, on the desk and compares what comes
// out.
//
// A case is a memory, a state and calls, with the model's answer to each call, its state after it,
// and its memory at the end. Compared are refusals, events with their cause or stop number, the
// words that a kernel entry saves, the steps that a run counts, whether and where it was held, the
// whole state after each call, and the whole memory after the last. A case that differs prints a
// line with its first difference, cases and calls counted from 1:
//
//     case 17: call 3: state
//
// The last line is `N cases equal, M differ, K left out`; N, M and K add up to the cases that the
// header counts. Left out are cases with more than 65,536 bytes of memory, cases stored in more
// than 262,144 bytes, and, where the input ends too early, the case that it cuts and all after it.
// The input has the form that model/src/store.rs describes and may have any length; bytes after the
// last case are not read. Input that does not start with a header prints only `the input holds no
// cases`.
#![tactic(auto)]

mod play;

ghost use Rattle.std.specs.Prelude.{◌+◌, ◌≤◌};

use play::Outcome;
use std::fmt;
use std::fmt::Write;
use std::io::{Error, ErrorKind, Read, Result};

const STDIN_FILENO: i32 = 0;

const STDOUT_FILENO: i32 = 1;

// The bytes that a case may be stored in.
const LONGEST: usize = 262144;

// Standard input, which ends where a read fails.
#[derive(Drop)]
struct Input;

impl Read for Input {
    fn read(&mut self, buf: &mut [u8]) -> Result<usize> {
        Ok(io::read_full(STDIN_FILENO, buf))
    }

    // By one read: it gives less only where the input ends.
    fn read_exact(&mut self, buf: &mut [u8]) -> Result<()> {
        if self.read(buf)? < buf.len() {
            return Err(Error::from(ErrorKind::UnexpectedEof));
        }
        Ok(())
    }
}

// Standard output. What cannot be written is dropped.
#[derive(Drop)]
struct Output;

impl Write for Output {
    fn write_str(&mut self, s: &str) -> fmt::Result {
        io::write_all(STDOUT_FILENO, s.as_bytes());
        Ok(())
    }
}

// The number of cases, where the input starts with a header.
fn read_header(input: &mut impl Read) -> Option<u64> {
    let mut header = [0u8; cases::HEADER];
    input.read_exact(&mut header).ok()?;
    if !cases::is_header(&header) {
        return None;
    }
    Some(cases::number_of_cases(&header))
}

// Reads past n bytes of the input, through the buffer. Fails where it ends before.
fn skip(n: usize, input: &mut impl Read, buffer: &mut [u8]) -> Result<()> {
    let mut left = n;
    while 0 < left {
        let most = left.min(buffer.len());
        let got = input.read(&mut buffer[..most])?;
        if got == 0 {
            return Err(Error::from(ErrorKind::UnexpectedEof));
        }
        left -= got;
    }
    Ok(())
}

// Reads the next case, its size first, and plays it. Fails where the input ends before.
fn next_case(input: &mut impl Read, buffer: &mut [u8]) -> Result<Outcome> {
    let mut size = [0u8; 4];
    input.read_exact(&mut size)?;
    let size = u32::from_be_bytes(size) as usize;
    match buffer.get_mut(..size) {
        Some(case) => {
            input.read_exact(case)?;
            Ok(play::play_case(case))
        }
        None => {
            skip(size, input, buffer)?;
            Ok(Outcome::LeftOut)
        }
    }
}

// Plays the cases and prints the difference of each that differs.
fn check_cases(out: &mut Output, input: &mut impl Read, all: u64) {
    let mut buffer = [0u8; LONGEST];
    let mut equal: u64 = 0;
    let mut differ: u64 = 0;
    for number in 1..=all {
        match next_case(input, &mut buffer) {
            Ok(Outcome::Equal) => equal += 1,
            Ok(Outcome::Differs(verdict)) => {
                differ += 1;
                let _ = writeln!(out, "case {number}: {verdict}");
            }
            Ok(Outcome::LeftOut) => {}
            Err(_) => break,
        }
    }
    let left_out = all - equal - differ;
    let _ = write!(
        out,
        "{equal} cases equal, {differ} differ, {left_out} left out\n"
    );
}

fn main() {
    let input = &mut Input;
    let out = &mut Output;
    match read_header(input) {
        Some(all) => check_cases(out, input, all),
        None => {
            let _ = out.write_str("the input holds no cases\n");
        }
    }
}
