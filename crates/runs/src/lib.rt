// Steps one after another, up to a number of them, a stop or a watched address.
#![tactic(auto)]

ghost use Rattle.std.specs.Prelude.{false, ◌≡◌, eqb, length, ◌%◌};
ghost use Rattle.breakpoints.specs.Gathered.{among_at, held_answer};
ghost use Rattle.breakpoints.specs.RunTo.{ran_to, steps_to};
ghost use Rattle.entry.specs.Replies.{shown, stepped_to};
ghost use Rattle.machine.specs.Calls.{step_refusal};
ghost use Rattle.machine.specs.Words.{pick};
ghost use Rattle.watch.specs.Addresses.{among, Covers};
ghost use Rattle.machine.specs.State.{desk_with};
ghost use Rattle.machine.specs.Steps.{one_step};

use machine::{Desk, Mark, Refusal, StepEvent};
use results::Out;

// The desk, running, with these registers and this status.
fn running(d: Desk, registers: [u32; 16], status: u32) -> Desk
    ensures { result ≡ desk_with d registers status d.pending Mark.Running }
{
    state::with(d, registers, status, d.pending, Mark::Running)
}

// What some steps came to: their number, whether they were held, the desk and, where one step was
// asked for, what it came to.
#[derive(Clone, Copy)]
pub struct Progress {
    pub count: u64,
    pub last: Result<StepEvent, Refusal>,
    pub held: bool,
    pub desk: Desk,
}

fn made(count: u64, last: Result<StepEvent, Refusal>, held: bool, desk: Desk) -> Progress
    ensures { result ≡ record { count = count; last = last; held = held; desk = desk } }
{
    Progress {
        count,
        last,
        held,
        desk,
    }
}

// Whether a run is held at a watched address, where no interrupt is due; never before its first step.
fn held_at(count: u64, r15: u32, watched: &[u32], filter: u64) -> bool
    requires covers { Covers filter watched.now }
    requires watched_len { length watched.now % 16 ≡ 0 }
    ensures { result ≡ pick (eqb count 0) false (among r15 watched.now) }
{
    if count == 0 {
        return false;
    }
    watch::met(watched, filter, r15)
}

// At most n steps, up to a stop or before a later command at a watched address; the filter lets those
// addresses pass. Commands that end quietly run one after another; no level can become due between
// them. All else goes through the whole desk; one step is a run of one.
pub fn steps(d: Desk, mem: &mut [u8], n: u64, watched: &[u32], filter: u64) -> Progress
    requires mem_value { step_refusal d (length mem.old) ≡ Ok tt }
    requires covers { Covers filter watched.now }
    requires watched_len { length watched.now % 16 ≡ 0 }
    ensures all { ran_to (held_answer result.held) result.count result.desk mem.new
        ≡ steps_to (among_at watched.now) n 0 d mem.old }
    ensures one { n ≡ 1 → stepped_to result.last result.desk mem.new ≡ shown (one_step d mem.old) mem.old }
{
    let mut desk = d;
    let mut last = Ok(StepEvent::Done);
    let mut count: u64 = 0;
    while count < n {
        let level = levels::interrupt(desk.status, desk.pending);
        if 0 < level {
            let reply = entry::enter_level(desk, mem, level);
            count += 1;
            desk = reply.desk;
            last = reply.answer;
        } else {
            let registers = desk.registers;
            if held_at(count, registers[15], watched, filter) {
                return made(count, last, true, desk);
            }
            let map = desk.map;
            let e = execution::exec(mem, registers, desk.status, map, n - count, watched, filter);
            let quiet = e.registers;
            let out = e.out;
            count += e.count;
            desk = running(desk, quiet, e.status);
            last = Ok(StepEvent::Done);
            if !out.is_ok_and(|end| matches!(end, Out::Done(_))) {
                let work = e.work;
                let reply = entry::conclude(desk, mem, work, out);
                count += 1;
                desk = reply.desk;
                last = reply.answer;
            }
        }
        let mark = desk.mark;
        match mark {
            Mark::Running => {}
            Mark::Stopped(_) => return made(count, last, false, desk),
        }
    }
    made(count, last, false, desk)
}
