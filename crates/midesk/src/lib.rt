// The calls for programs in C and Rust: the state as bytes; memory, load lists, scratch and breakpoints
// as lent slices. Any bytes may be handed in as any of them, any numbers and switches as breakpoints;
// every call answers. Beside them the version of the archive. (`midesk_c` exports them.)
#![tactic(auto)]

ghost use Rattle.std.specs.Prelude.{◌≡◌, length};
ghost use Rattle.midesk.specs.Exports.{fresh_call, load_both_call, load_call, request_call, run_call, run_to_call, step_call};
ghost use Rattle.midesk.specs.Exports.{step_code, version};
ghost use Rattle.midesk.specs.Unplaced.{code_by, held_code, run_bytes_of};

use breakpoints::{Armed, Breakpoint, MOST, RunToRefusal};
use layout::STATE_BYTES;
use machine::{RealAddress, Refusal, StepEvent, VirtualAddress, answer_number};

// A fresh desk over this memory, into state. Answers the number of the refusal, or 0.
pub fn midesk_fresh(
    mem: &[u8],
    system: u32,
    control: u32,
    start: u32,
    state: &mut [u8; STATE_BYTES],
) -> u32
    ensures { record { answer = result; state = state.new }
        ≡ fresh_call (length mem.now) system control start }
{
    let r = desk::fresh(
        mem,
        RealAddress(system),
        RealAddress(control),
        VirtualAddress(start),
    );
    *state = layout::pack(r.desk);
    answer_number(r.answer)
}

// What a step came to: its kind times 2^32, and its number.
fn step_code(answer: Result<StepEvent, Refusal>) -> u64
    ensures { result ≡ step_code answer }
{
    let number = u64::from(machine::step_answer_number(answer));
    match answer {
        Ok(StepEvent::Done) => number,
        Err(_) => 0x1_0000_0000 + number,
        Ok(StepEvent::Entered(_)) => 0x2_0000_0000 + number,
        Ok(StepEvent::Stopped(_)) => 0x3_0000_0000 + number,
    }
}

// One step.
pub fn midesk_step(mem: &mut [u8], state: &mut [u8; STATE_BYTES]) -> u64
    ensures { record { answer = result; state = state.new; memory = mem.new }
        ≡ step_call state.old mem.old }
{
    let r = desk::step(layout::unpack(*state), mem);
    *state = layout::pack(r.desk);
    step_code(r.answer)
}

// At most n steps; how many it made goes into steps. Answers the number of the refusal, or 0.
pub fn midesk_run(mem: &mut [u8], state: &mut [u8; STATE_BYTES], n: u64, steps: &mut u64) -> u32
    ensures { record
        { answer = result; steps = steps.new; state = state.new; memory = mem.new }
        ≡ run_call n state.old mem.old }
{
    let r = desk::run(layout::unpack(*state), mem, n);
    *state = layout::pack(r.desk);
    *steps = r.steps;
    answer_number(r.answer)
}

// A run with breakpoints whose place is not yet found: what it came to, and R15 there.
#[derive(Clone, Copy)]
pub struct Unplaced {
    pub answer: Result<Option<usize>, RunToRefusal>,
    pub r15: u32,
}

// A run with the addresses of the armed breakpoints.
fn run_bytes(
    mem: &mut [u8],
    state: &mut [u8; STATE_BYTES],
    n: u64,
    a: Armed,
    steps: &mut u64,
) -> Unplaced
    ensures { record
        { unplaced = result; steps = steps.new; state = state.new; memory = mem.new }
        ≡ run_bytes_of a n state.old mem.old }
{
    let ran = armed::run_armed(layout::unpack(*state), mem, n, a);
    *state = layout::pack(ran.desk);
    *steps = ran.steps;
    Unplaced {
        answer: ran.answer,
        r15: breakpoints::r15_after(ran),
    }
}

// A hold's kind times 2^32, and its place.
fn held_code(found: Option<usize>) -> u64
    ensures { result ≡ held_code found }
{
    match found {
        Some(place) if place < MOST => 0x4_0000_0000 + place as u64,
        _ => 0,
    }
}

// What a run with breakpoints came to: its kind times 2^32, and its number.
fn run_to_code(u: Unplaced, found: Option<usize>) -> u64
    ensures { result ≡ code_by u.answer found }
{
    match u.answer {
        Err(refusal) => 0x1_0000_0000 + u64::from(u32::from(refusal)),
        Ok(None) => 0,
        Ok(Some(_)) => held_code(found),
    }
}

// At most n steps, up to a stop or a breakpoint of the list; how many it made goes into steps. Answers
// what it came to: its kind times 2^32, and its number.
pub fn midesk_run_to(
    mem: &mut [u8],
    state: &mut [u8; STATE_BYTES],
    n: u64,
    points: &[Breakpoint],
    steps: &mut u64,
) -> u64
    ensures { record
        { answer = result; steps = steps.new; state = state.new; memory = mem.new }
        ≡ run_to_call points.now n state.old mem.old }
{
    let a = breakpoints::gather(points);
    let u = run_bytes(mem, state, n, a, steps);
    run_to_code(u, breakpoints::first_armed(points, u.r15))
}

// An interrupt level is requested. Answers the number of the refusal, or 0.
pub fn midesk_request(state: &mut [u8; STATE_BYTES], level: u32) -> u32
    ensures { record { answer = result; state = state.new } ≡ request_call state.old level }
{
    let r = desk::request(layout::unpack(*state), level);
    *state = layout::pack(r.desk);
    answer_number(r.answer)
}

// Loads a list into this memory. Answers the number of the refusal, or 0.
pub fn midesk_load(mem: &mut [u8], list: &[u8]) -> u32
    ensures { record { answer = result; memory = mem.new }
        ≡ load_call mem.old list.now }
{
    answer_number(load::load(mem, list))
}

// Loads two lists into this memory, with a scratch at least as long as it. Answers the number of the
// refusal, or 0.
pub fn midesk_load_both(mem: &mut [u8], first: &[u8], second: &[u8], scratch: &mut [u8]) -> u32
    ensures { record { answer = result; memory = mem.new; scratch = scratch.new }
        ≡ load_both_call mem.old first.now second.now scratch.old }
{
    answer_number(joint::load_both(mem, first, second, scratch))
}

// The version of the archive: major, minor and patch in a byte each, patch lowest.
pub fn midesk_version() -> u32
    ensures { result ≡ version }
{
    0x03_02_02
}
