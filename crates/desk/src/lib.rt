// The MI desk: make a fresh one, step it, run it, run it with breakpoints, request an interrupt
// level. Every call answers every input.
#![tactic(auto)]

ghost use Rattle.std.specs.Prelude.{◌≡◌, length};
ghost use Rattle.breakpoints.specs.RunTo.{run_to_of};
ghost use Rattle.machine.specs.Calls.{fresh_of, request_of, run_of, step_of};

use breakpoints::{Breakpoint, RunToReply};
use machine::{Desk, RealAddress, Refusal, Reply, RunReply, StepReply, VirtualAddress};

// A fresh desk over this memory: kernel mode, zero registers but R15, which is start.
pub fn fresh(mem: &[u8], system: RealAddress, control: RealAddress, start: VirtualAddress) -> Reply
    ensures { result ≡ fresh_of (length mem.now) system control start }
{
    match refusals::block_refusal(mem.len(), system, control) {
        Ok(()) => Reply {
            answer: Ok(()),
            desk: state::fresh(system, control, start),
        },
        Err(refusal) => Reply {
            answer: Err(refusal),
            desk: state::zero(u32::from(refusal)),
        },
    }
}

// One step.
pub fn step(d: Desk, mem: &mut [u8]) -> StepReply
    ensures { record { reply = result; memory = mem.new } ≡ step_of d mem.old }
{
    match refusals::refusal(d, mem.len()) {
        Ok(()) => {
            let p = runs::steps(d, mem, 1, &[], 0);
            StepReply {
                answer: p.last,
                desk: p.desk,
            }
        }
        Err(refusal) => StepReply {
            answer: Err(refusal),
            desk: d,
        },
    }
}

// At most n steps, up to a stop. The refusals are tried once.
pub fn run(d: Desk, mem: &mut [u8], n: u64) -> RunReply
    ensures { record { reply = result; memory = mem.new } ≡ run_of n d mem.old }
{
    match refusals::refusal(d, mem.len()) {
        Ok(()) => {
            let p = runs::steps(d, mem, n, &[], 0);
            RunReply {
                answer: Ok(()),
                steps: p.count,
                desk: p.desk,
            }
        }
        Err(refusal) => RunReply {
            answer: Err(refusal),
            steps: 0,
            desk: d,
        },
    }
}

// At most n steps, up to a stop or a breakpoint. The list is lent as it is: its armed addresses are
// gathered for the run; afterwards it is searched at the R15 that is left, and a run that was held gets
// that place.
pub fn run_to(d: Desk, mem: &mut [u8], n: u64, points: &[Breakpoint]) -> RunToReply
    ensures { record { reply = result; memory = mem.new }
        ≡ run_to_of points.now n d mem.old }
{
    let a = breakpoints::gather(points);
    let r = armed::run_armed(d, mem, n, a);
    let r15 = breakpoints::r15_after(r);
    let found = breakpoints::first_armed(points, r15);
    breakpoints::placed(r, found)
}

// An interrupt level is requested: any number may be given, 1 to 15 are levels.
pub fn request(mut d: Desk, level: u32) -> Reply
    ensures { result ≡ request_of d level }
{
    if !checks::state_valid(d.status, d.pending) {
        return Reply {
            answer: Err(Refusal::Status),
            desk: d,
        };
    }
    if !(1..=15).contains(&level) {
        return Reply {
            answer: Err(Refusal::Level),
            desk: d,
        };
    }
    d.pending = levels::with_level(d.pending, level);
    Reply {
        answer: Ok(()),
        desk: d,
    }
}
