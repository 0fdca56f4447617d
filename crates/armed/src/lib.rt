// A run with the addresses of the armed breakpoints of a list: whether it was held is known after it, by
// which breakpoint not yet.
#![tactic(auto)]

ghost use Rattle.std.specs.Prelude.{◌≡◌, leb, length, take, ◌≤◌};
ghost use Rattle.breakpoints.specs.Breakpoints.{most};
ghost use Rattle.breakpoints.specs.Gathered.{among_at, held_answer, run_armed_of, run_to_refusal};
ghost use Rattle.breakpoints.specs.RunTo.{ran_to, steps_to};
ghost use Rattle.machine.specs.Calls.{step_refusal};

use breakpoints::{Armed, MOST, RunToRefusal, RunToReply};
use machine::Desk;
use runs::Progress;

// The steps of a run that is held at the first `count` addresses.
fn steps_to(d: Desk, mem: &mut [u8], n: u64, addresses: [u32; MOST], count: usize) -> Progress
    requires mem_value { step_refusal d (length mem.old) ≡ Ok tt }
    requires count_bound { count ≤ 64 }
    ensures { ran_to (held_answer result.held) result.count result.desk mem.new
        ≡ steps_to (among_at (take count addresses)) n 0 d mem.old }
{
    if count == 0 {
        return runs::steps(d, mem, n, &[], 0);
    }
    let all = watch::filled(addresses, count);
    let filter = watch::filter_of(&all);
    runs::steps(d, mem, n, &all, filter)
}

// What those steps came to; the place of a hold is not known yet, and told as the first.
fn reply_of(p: Progress) -> RunToReply
    ensures { result ≡ record { answer = held_answer p.held; steps = p.count; desk = p.desk } }
{
    RunToReply {
        answer: Ok(p.held.then_some(0)),
        steps: p.count,
        desk: p.desk,
    }
}

// Why a run over a memory of n bytes with a list of that length is refused: 20 is tried after 7.
fn refusal(d: Desk, n: usize, length: usize) -> Result<(), RunToRefusal>
    ensures { result ≡ run_to_refusal (step_refusal d n) (leb length most) }
{
    refusals::refusal(d, n)?;
    if MOST < length {
        return Err(RunToRefusal::Breakpoints);
    }
    Ok(())
}

// A run with the addresses of the armed breakpoints.
pub fn run_armed(d: Desk, mem: &mut [u8], n: u64, a: Armed) -> RunToReply
    ensures { record { reply = result; memory = mem.new } ≡ run_armed_of a n d mem.old }
{
    match refusal(d, mem.len(), a.length) {
        Ok(()) => reply_of(steps_to(d, mem, n, a.addresses, a.count)),
        Err(refusal) => RunToReply {
            answer: Err(refusal),
            steps: 0,
            desk: d,
        },
    }
}
