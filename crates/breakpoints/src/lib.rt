// Breakpoints: a lent list of them, each an R15 value and whether it is armed.
#![tactic(auto)]

ghost use Rattle.std.specs.Prelude.{◌≡◌, take};
ghost use Rattle.breakpoints.specs.Breakpoints.{most, first_armed};
ghost use Rattle.breakpoints.specs.RunTo.{run_to_answer_number, run_to_refusal_number};
ghost use Rattle.breakpoints.specs.Gathered.{Gathers, placed_reply, with_one};
ghost use Rattle.breakpoints.specs.declared.RunToRefusal.TheVariants.{Run};
ghost use Rattle.machine.specs.State.{reg};

pub use armed::{Addresses, Armed};
use machine::{Desk, Refusal, VirtualAddress};

mod armed;

// A list has at most so many breakpoints.
pub const MOST: usize = 64;

// A run is held where R15 is this, if the breakpoint is armed. Laid out as in C, whose callers lend lists
// of them.
#[repr(C)]
#[derive(Clone, Copy)]
pub struct Breakpoint {
    pub r15: VirtualAddress,
    pub armed: bool,
}

// Why a run with breakpoints is refused: numbers 1 to 5 and 7 as a run's, and 20.
#[derive(Clone, Copy, Debug, PartialEq, Eq)]
pub enum RunToRefusal {
    Run(Refusal),
    Breakpoints,
}

// What a run with breakpoints hands back. It was refused; or it ended as a run ends, after all steps or
// by a stop; or it was held before a command, by the breakpoint in that place of the list, from 0. Steps
// counts those that it made.
#[derive(Clone, Copy)]
pub struct RunToReply {
    pub answer: Result<Option<usize>, RunToRefusal>,
    pub steps: u64,
    pub desk: Desk,
}

impl From<Refusal> for RunToRefusal {
    ghost from_gives = { λ k r. r ≡ Run k };

    fn from(refusal: Refusal) -> RunToRefusal {
        RunToRefusal::Run(refusal)
    }
}

// The number of a refusal in documents 01 and 02.
impl From<RunToRefusal> for u32 {
    ghost from_gives = { λ k n. n ≡ run_to_refusal_number k };

    fn from(refusal: RunToRefusal) -> u32 {
        match refusal {
            RunToRefusal::Run(k) => u32::from(k),
            RunToRefusal::Breakpoints => 20,
        }
    }
}

// The number of a refusal, or the place of the breakpoint that held the run; 0 where it ended otherwise.
// The case tells which.
pub fn run_to_answer_number(answer: Result<Option<usize>, RunToRefusal>) -> u64
    ensures { result ≡ run_to_answer_number answer }
{
    match answer {
        Ok(None) => 0,
        Ok(Some(place)) => place as u64,
        Err(refusal) => u64::from(u32::from(refusal)),
    }
}

// The place of the first armed breakpoint at R15. Of a list that has more than 64, which is refused, only
// the first ones are looked at.
pub fn first_armed(points: &[Breakpoint], r15: u32) -> Option<usize>
    ensures { result ≡ first_armed r15 (take most points.now) }
{
    for i in 0..MOST.min(points.len()) {
        let p = points[i];
        if p.armed & (p.r15.0 == r15) {
            return Some(i);
        }
    }
    None
}

// The address of an armed breakpoint is added, where there is room.
pub fn with_one(mut a: Addresses, p: Breakpoint) -> Addresses
    ensures { result ≡ with_one a p }
{
    if p.armed && a.count < MOST {
        a.addresses[a.count] = p.r15.0;
        a.count += 1;
    }
    a
}

// The armed breakpoints of a list, of those that are looked at, and the whole list's length.
pub fn gather(points: &[Breakpoint]) -> Armed
    ensures { Gathers result points.now }
{
    let mut a = Addresses {
        addresses: [0; MOST],
        count: 0,
    };
    for p in points.iter().take(MOST) {
        a = with_one(a, *p);
    }
    let Addresses { addresses, count } = a;
    Armed {
        addresses,
        count,
        length: points.len(),
    }
}

// ---- The place of a hold

// R15 of the desk that a run has handed back.
pub fn r15_after(r: RunToReply) -> u32
    ensures { result ≡ reg r.desk.registers 15 }
{
    r.desk.registers[15]
}

// The reply with the place of the breakpoint that was found.
pub fn placed(r: RunToReply, found: Option<usize>) -> RunToReply
    ensures { result ≡ placed_reply r found }
{
    match r.answer {
        Ok(Some(_)) => RunToReply {
            answer: Ok(found),
            ..r
        },
        Ok(None) => r,
        Err(_) => r,
    }
}
