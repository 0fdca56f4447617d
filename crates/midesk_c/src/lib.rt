// The exports of libmidesk.a: the calls of `midesk` under their names, with their promises.
#![tactic(auto)]

ghost use Rattle.std.specs.Prelude.{◌≡◌, length};
ghost use Rattle.midesk.specs.Exports.{fresh_call, load_both_call, load_call, request_call, run_call, run_to_call, step_call, version};

use breakpoints::Breakpoint;
use layout::STATE_BYTES;

// A fresh desk over this memory, into state. Answers the number of the refusal, or 0.
#[unsafe(no_mangle)]
pub extern "C" fn midesk_fresh(
    mem: &[u8],
    system: u32,
    control: u32,
    start: u32,
    state: &mut [u8; STATE_BYTES],
) -> u32
    ensures { record { answer = result; state = state.new }
        ≡ fresh_call (length mem.now) system control start }
{
    midesk::midesk_fresh(mem, system, control, start, state)
}

// One step.
#[unsafe(no_mangle)]
pub extern "C" fn midesk_step(mem: &mut [u8], state: &mut [u8; STATE_BYTES]) -> u64
    ensures { record { answer = result; state = state.new; memory = mem.new }
        ≡ step_call state.old mem.old }
{
    midesk::midesk_step(mem, state)
}

// At most n steps; how many it made goes into steps. Answers the number of the refusal, or 0.
#[unsafe(no_mangle)]
pub extern "C" fn midesk_run(
    mem: &mut [u8],
    state: &mut [u8; STATE_BYTES],
    n: u64,
    steps: &mut u64,
) -> u32
    ensures { record
        { answer = result; steps = steps.new; state = state.new; memory = mem.new }
        ≡ run_call n state.old mem.old }
{
    midesk::midesk_run(mem, state, n, steps)
}

// At most n steps, up to a stop or a breakpoint of the list; how many it made goes into steps. Answers
// what it came to: its kind times 2^32, and its number.
#[unsafe(no_mangle)]
pub extern "C" fn midesk_run_to(
    mem: &mut [u8],
    state: &mut [u8; STATE_BYTES],
    n: u64,
    points: &[Breakpoint],
    steps: &mut u64,
) -> u64
    ensures { record
        { answer = result; steps = steps.new; state = state.new; memory = mem.new }
        ≡ run_to_call points.now n state.old mem.old }
{
    midesk::midesk_run_to(mem, state, n, points, steps)
}

// An interrupt level is requested. Answers the number of the refusal, or 0.
#[unsafe(no_mangle)]
pub extern "C" fn midesk_request(state: &mut [u8; STATE_BYTES], level: u32) -> u32
    ensures { record { answer = result; state = state.new } ≡ request_call state.old level }
{
    midesk::midesk_request(state, level)
}

// Loads a list into this memory. Answers the number of the refusal, or 0.
#[unsafe(no_mangle)]
pub extern "C" fn midesk_load(mem: &mut [u8], list: &[u8]) -> u32
    ensures { record { answer = result; memory = mem.new }
        ≡ load_call mem.old list.now }
{
    midesk::midesk_load(mem, list)
}

// Loads two lists into this memory, with a scratch at least as long as it. Answers the number of the
// refusal, or 0.
#[unsafe(no_mangle)]
pub extern "C" fn midesk_load_both(
    mem: &mut [u8],
    first: &[u8],
    second: &[u8],
    scratch: &mut [u8],
) -> u32
    ensures { record { answer = result; memory = mem.new; scratch = scratch.new }
        ≡ load_both_call mem.old first.now second.now scratch.old }
{
    midesk::midesk_load_both(mem, first, second, scratch)
}

// The version of the archive: major, minor and patch in a byte each, patch lowest.
#[unsafe(no_mangle)]
pub extern "C" fn midesk_version() -> u32
    ensures { result ≡ version }
{
    midesk::midesk_version()
}
