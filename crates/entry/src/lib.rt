// What becomes of a command that did not just go on: kernel entries, RESUME, stops.
#![tactic(auto)]

ghost use Rattle.std.specs.Prelude.{◌≡◌, ◌+◌, ◌^◌, ◌≤◌};
ghost use Rattle.entry.specs.Replies.{Blocks, ResumesInKernelMode, alarmed_by, concluded_end, entered_by, reply_of};
ghost use Rattle.entry.specs.Replies.{stepped};
ghost use Rattle.machine.specs.Alarms.{alarm_number};
ghost use Rattle.machine.specs.State.{desk_with, without_level};
ghost use Rattle.machine.specs.Steps.{enters, resume as resume_of, stop as stop_of};
ghost use Rattle.results.specs.Ends.{out_as};

use machine::{Alarm, Desk, Fault, Map, Mark, RealAddress, StepEvent, StepReply};
use results::Out;

// It stops with a number, and all else is as before the command.
fn stop(d: Desk, n: u32) -> StepReply
    ensures { result ≡ reply_of (stop_of n d) }
{
    let registers = d.registers;
    let desk = state::with(d, registers, d.status, d.pending, Mark::Stopped(n));
    StepReply {
        answer: Ok(StepEvent::Stopped(n)),
        desk,
    }
}

// With the number of an alarm.
fn stop_for(d: Desk, a: Alarm) -> StepReply
    ensures { result ≡ reply_of (stop_of (alarm_number a) d) }
{
    stop(d, a.number())
}

// A kernel entry: its cause, the registers to save, its argument and the pending set left. A stop
// with 16 where the system block's entry holds no valid kernel status.
fn enter(
    d: Desk,
    mem: &mut [u8],
    cause: u32,
    registers: [u32; 16],
    argument: u32,
    pending: u16,
) -> StepReply
    requires { Blocks d mem.old }
    ensures { stepped result mem.new
        ≡ entered_by d mem.old (enters cause registers argument pending) }
{
    let system = d.system;
    let status = blocks::entry_status(mem, system, cause);
    let valid = checks::is_valid_kernel(status);
    if !valid {
        return stop(d, 16);
    }
    let start = blocks::entry_r15(mem, system, cause);
    let control = d.control;
    blocks::save(mem, control, &registers, d.status, argument);
    let mut work = registers;
    work[15] = start;
    let mark = d.mark;
    let desk = state::with(d, work, status, pending, mark);
    StepReply {
        answer: Ok(StepEvent::Entered(cause)),
        desk,
    }
}

// RESUME from the control block at an address; a stop with 14 where that or the map does not fit,
// or the status is no valid user status.
fn resume(d: Desk, mem: &[u8], a: RealAddress) -> StepReply
    ensures { result ≡ reply_of (resume_of d mem.now a) }
{
    let n = mem.len();
    let fits = checks::block_fits(a, machine::CONTROL_BLOCK_BYTES, n);
    if !fits {
        return stop_for(d, Alarm::Operand);
    }
    let at = a.0 as usize;
    let map = Map {
        base: RealAddress(words::word(mem, at + 72)),
        length: words::word(mem, at + 76),
    };
    let map_fits = checks::map_fits(map, n);
    if !map_fits {
        return stop_for(d, Alarm::Operand);
    }
    let status = words::word(mem, at + 64);
    let valid = checks::is_valid_user(status);
    if !valid {
        return stop_for(d, Alarm::Operand);
    }
    let registers = words::sixteen(mem, at);
    let desk = state::resumed(d, registers, status, map, a);
    StepReply {
        answer: Ok(StepEvent::Done),
        desk,
    }
}

// An alarm: a kernel entry in user mode, a stop in kernel mode.
fn break_off(d: Desk, mem: &mut [u8], fault: Fault) -> StepReply
    requires { Blocks d mem.old }
    ensures { stepped result mem.new ≡ alarmed_by d mem.old fault.alarm fault.argument }
{
    if d.status < 0x8000_0000 {
        return enter(
            d,
            mem,
            fault.alarm.cause(),
            d.registers,
            fault.argument,
            d.pending,
        );
    }
    stop_for(d, fault.alarm)
}

// A command that ended quietly changes registers and status.
fn done(d: Desk, registers: [u32; 16], status: u32) -> StepReply
    ensures { result ≡ record
        { answer = Ok StepEvent.Done; desk = desk_with d registers status d.pending d.mark } }
{
    let mark = d.mark;
    let desk = state::with(d, registers, status, d.pending, mark);
    StepReply {
        answer: Ok(StepEvent::Done),
        desk,
    }
}

// What becomes of a command of desk d that ended so, with these registers.
pub fn conclude(d: Desk, mem: &mut [u8], work: [u32; 16], out: Result<Out, Fault>) -> StepReply
    requires { Blocks d mem.old × ResumesInKernelMode d.status out }
    ensures { stepped result mem.new
        ≡ concluded_end d mem.old (out_as out work mem.old) }
{
    match out {
        Ok(Out::Done(s)) => done(d, work, s),
        Ok(Out::System(x)) => enter(d, mem, 1, work, x, d.pending),
        Ok(Out::Halt) => {
            let desk = state::with(d, work, d.status, d.pending, Mark::Stopped(0));
            StepReply {
                answer: Ok(StepEvent::Stopped(0)),
                desk,
            }
        }
        Ok(Out::Resume(x)) => resume(d, mem, lookup::real(d.status, x)),
        Err(fault) => break_off(d, mem, fault),
    }
}

// The level that is due is entered and its pending bit cleared.
pub fn enter_level(d: Desk, mem: &mut [u8], level: u32) -> StepReply
    requires { Blocks d mem.old × (level ≤ 15) × (2 ^ level ≤ d.pending) }
    ensures { stepped result mem.new
        ≡ entered_by d mem.old (enters (16 + level) d.registers level (without_level d.pending level)) }
{
    let registers = d.registers;
    let left = levels::without_level(d.pending, level);
    enter(d, mem, 16 + level, registers, level, left)
}
