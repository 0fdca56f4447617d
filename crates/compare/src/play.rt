// A case, played on the desk.
use breakpoints::Breakpoint;
use cases::answers::{
    check_both, check_load, check_memory, check_reply, check_run, check_run_to, check_step,
};
use cases::difference::{Difference, Verdict};
use cases::fields::Fields;
use cases::memory::{fill, fill_scratch};
use cases::snapshot::{WORDS, Words, changed, desk_of};
use listed::ROOM;
use machine::{RealAddress, VirtualAddress, answer_number};

// The bytes that a memory or a scratch may have.
const MOST_BYTES: usize = 65536;

// What became of a case.
#[derive(Clone, Copy)]
pub enum Outcome {
    Equal,
    Differs(Verdict),
    LeftOut,
}

// Each kind of call, below, gives the model's state after it, or the first difference.

fn step(fields: &mut Fields, before: Words, mem: &mut [u8]) -> Result<Words, Difference> {
    let reply = desk::step(desk_of(before), mem);
    check_step(fields, before, reply, mem)
}

// u32 n.
fn run(fields: &mut Fields, before: Words, mem: &mut [u8]) -> Result<Words, Difference> {
    let n = u64::from(fields.word());
    let reply = desk::run(desk_of(before), mem, n);
    check_run(fields, before, reply)
}

// u32 R15, u8 armed.
fn breakpoint(fields: &mut Fields) -> Breakpoint {
    let r15 = VirtualAddress(fields.word());
    let armed = fields.byte() != 0;
    Breakpoint { r15, armed }
}

// u32 n, u32 number of breakpoints, and these.
fn run_to(fields: &mut Fields, before: Words, mem: &mut [u8]) -> Result<Words, Difference> {
    let n = u64::from(fields.word());
    let count = fields.word() as usize;
    if count > ROOM {
        return Err(Difference::Format);
    }
    let mut points = [Breakpoint {
        r15: VirtualAddress(0),
        armed: false,
    }; ROOM];
    for point in points.iter_mut().take(count) {
        *point = breakpoint(fields);
    }
    let reply = listed::run_to(desk_of(before), mem, n, points, count);
    check_run_to(fields, before, reply)
}

// u32 level.
fn request(fields: &mut Fields, before: Words) -> Result<Words, Difference> {
    let reply = desk::request(desk_of(before), fields.word());
    check_reply(fields, before, reply)
}

// u32 system block, u32 control block, u32 start.
fn fresh(fields: &mut Fields, before: Words, mem: &[u8]) -> Result<Words, Difference> {
    let system = RealAddress(fields.word());
    let control = RealAddress(fields.word());
    let start = VirtualAddress(fields.word());
    let reply = desk::fresh(mem, system, control, start);
    check_reply(fields, before, reply)
}

// A load list.
fn load_list(fields: &mut Fields, before: Words, mem: &mut [u8]) -> Result<Words, Difference> {
    let answer = load::load(mem, fields.list());
    check_load(fields, before, answer_number(answer))
}

// Two load lists; u32 length of the scratch, u8 first, u8 add: the scratch before the call.
fn load_both(fields: &mut Fields, before: Words, mem: &mut [u8]) -> Result<Words, Difference> {
    let first = fields.list();
    let second = fields.list();
    let n = fields.word() as usize;
    if n > MOST_BYTES {
        return Err(Difference::Format);
    }
    let mut scratch = [0u8; MOST_BYTES];
    fill_scratch(&mut scratch[..n], fields);
    let same = scratch;
    let answer = joint::load_both(mem, first, second, &mut scratch[..n]);
    check_both(
        fields,
        before,
        answer_number(answer),
        &scratch[..n],
        &same[..n],
    )
}

// u8 kind, and the fields of that kind.
fn check_call(fields: &mut Fields, before: Words, mem: &mut [u8]) -> Result<Words, Difference> {
    match fields.byte() {
        0 => step(fields, before, mem),
        1 => run(fields, before, mem),
        2 => request(fields, before),
        3 => fresh(fields, before, mem),
        4 => load_list(fields, before, mem),
        5 => load_both(fields, before, mem),
        6 => run_to(fields, before, mem),
        _ => Err(Difference::Format),
    }
}

// u16 number of calls, and the calls, made in order up to the first difference.
fn play_calls(fields: &mut Fields, start: Words, mem: &mut [u8]) -> Result<(), Verdict> {
    let mut words = start;
    for call in 1..=u64::from(fields.half()) {
        if fields.is_empty() {
            break;
        }
        match check_call(fields, words, mem) {
            Ok(after) => words = after,
            Err(what) => {
                return Err(Verdict {
                    what,
                    call: Some(call),
                });
            }
        }
    }
    Ok(())
}

// The start state, the calls, and the memory after them. Both mem and model hold the image.
fn play_on(fields: &mut Fields, mem: &mut [u8], model: &mut [u8]) -> Result<(), Verdict> {
    let start = changed(fields, [0; WORDS]);
    play_calls(fields, start, mem)?;
    check_memory(fields, mem, model).map_err(|what| Verdict { what, call: None })
}

// u32 length of the memory, its image, and the rest.
pub fn play_case(case: &[u8]) -> Outcome {
    let mut fields = Fields::new(case);
    let length = fields.word() as usize;
    if length > MOST_BYTES {
        return Outcome::LeftOut;
    }
    let mut mem = [0u8; MOST_BYTES];
    fill(&mut mem[..length], &mut fields);
    let mut model = mem;
    match play_on(&mut fields, &mut mem[..length], &mut model[..length]) {
        Ok(()) => Outcome::Equal,
        Err(verdict) => Outcome::Differs(verdict),
    }
}
