// trace: runs a program from standard input on a fresh desk and prints each step.
//
// Up to 65,536 bytes are taken into a memory of zeros; the desk gets the least allowed length that
// covers them, system block 0, control block 256, start 512, and makes at most 1,000 steps. Each
// line has the step, and R15 and the status after it; the last says `stop` with the number, or
// `end`. Longer input prints only `1`, the number of the refusal.
#![tactic(auto)]

ghost use Rattle.std.specs.Prelude.{◌≡◌, ◌≤◌};
ghost use Rattle.trace.specs.Length.{least_length};

use machine::{Desk, Mark, RealAddress, Refusal, VirtualAddress};
use std::fmt;
use std::fmt::Write;

const STDIN_FILENO: i32 = 0;

const STDOUT_FILENO: i32 = 1;

// The hexadecimal digits, in capitals.
const DIGITS: [u8; 16] = *b"0123456789ABCDEF";

// Standard output. What cannot be written is dropped.
#[derive(Drop)]
struct Output;

impl Output {
    // A word as eight hexadecimal digits, in one piece: a full pipe takes it whole or not at all.
    fn word(&mut self, w: u32) {
        let mut text = [0u8; 8];
        let mut rest = w;
        for i in (0..8).rev() {
            text[i] = DIGITS[(rest % 16) as usize];
            rest /= 16;
        }
        io::write_all(STDOUT_FILENO, &text);
    }
}

impl Write for Output {
    fn write_str(&mut self, s: &str) -> fmt::Result {
        io::write_all(STDOUT_FILENO, s.as_bytes());
        Ok(())
    }
}

// The least allowed memory length that covers n bytes.
fn covering(n: usize) -> usize
    requires { n ≤ 65536 }
    ensures value { result ≡ least_length n }
    ensures small { result ≤ 65536 }
{
    n.next_multiple_of(512).max(512)
}

// The line of a step.
fn print_step(out: &mut Output, step: u64, desk: Desk) {
    let _ = write!(out, "{step} ");
    out.word(desk.registers[15]);
    let _ = out.write_str(" ");
    out.word(desk.status);
    let _ = out.write_str("\n");
}

// Steps up to a stop, at most 1,000.
fn trace(out: &mut Output, first: Desk, mem: &mut [u8]) {
    let mut desk = first;
    for k in 1..=1000 {
        desk = desk::step(desk, mem).desk;
        print_step(out, k, desk);
        if let Mark::Stopped(n) = desk.mark {
            let _ = writeln!(out, "stop {n}");
            return;
        }
    }
    let _ = out.write_str("end\n");
}

fn main() {
    let out = &mut Output;
    let mut mem = [0u8; 65536];
    let n = io::read_full(STDIN_FILENO, &mut mem);
    let mut more = [0u8; 1];
    if io::read_full(STDIN_FILENO, &mut more) != 0 {
        let _ = writeln!(out, "{}", u32::from(Refusal::Length));
        return;
    }
    let length = covering(n);
    let part = &mut mem[..length];
    // Never refused: the length is allowed, and both blocks lie in its first 512 bytes.
    let made = desk::fresh(part, RealAddress(0), RealAddress(256), VirtualAddress(512));
    trace(out, made.desk, part);
}
