// A run with the breakpoints of an array, for callers that have no list to lend.
#![tactic(auto)]

ghost use Rattle.std.specs.Prelude.{◌≡◌, ◌≤◌, take};
ghost use Rattle.breakpoints.specs.RunTo.{run_to_of};

use breakpoints::{Breakpoint, RunToReply};
use machine::Desk;

// More breakpoints than a list may have, so that a list that is refused has room too.
pub const ROOM: usize = 70;

// At most n steps, up to a stop or one of the first `count` breakpoints.
pub fn run_to(
    d: Desk,
    mem: &mut [u8],
    n: u64,
    points: [Breakpoint; ROOM],
    count: usize,
) -> RunToReply
    requires { count ≤ 70 }
    ensures { record { reply = result; memory = mem.new }
        ≡ run_to_of (take count points) n d mem.old }
{
    desk::run_to(d, mem, n, &points[..count])
}
