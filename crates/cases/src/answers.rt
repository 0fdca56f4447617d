// What a case expects: of the reply to each call the answer, the words that an entry saves and the
// state; and the memory after the last call. Each check reads its fields in their order and fails
// with the first difference; that of a call gives the model's state after it.
use crate::difference::Difference;
use crate::fields::Fields;
use crate::memory::patch;
use crate::snapshot::{SAVED, Words, changed, desk_of, saved_in, unsaved, words_of};
use breakpoints::RunToReply;
use machine::{Desk, Reply, RunReply, StepEvent, StepReply, answer_number};

fn check(same: bool, what: Difference) -> Result<(), Difference> {
    if same { Ok(()) } else { Err(what) }
}

// A refusal's number or 0, against a u8.
fn check_refusal(fields: &mut Fields, number: u32) -> Result<(), Difference> {
    check(number == u32::from(fields.byte()), Difference::Refusal)
}

// A count of steps, against a u32.
fn check_count(fields: &mut Fields, steps: u64) -> Result<(), Difference> {
    check(steps == u64::from(fields.word()), Difference::Count)
}

// The state after a call, against changes of the one before it.
fn check_state(fields: &mut Fields, before: Words, desk: Desk) -> Result<Words, Difference> {
    let words = changed(fields, before);
    check(words_of(desk) == words, Difference::State)?;
    Ok(words)
}

// The reply to a request or to the call for a fresh desk: u8 refusal, and the state.
pub fn check_reply(fields: &mut Fields, before: Words, reply: Reply) -> Result<Words, Difference> {
    check_refusal(fields, answer_number(reply.answer))?;
    check_state(fields, before, reply.desk)
}

// The number that a load answers: u8 refusal, and the state, which it leaves.
pub fn check_load(fields: &mut Fields, before: Words, number: u32) -> Result<Words, Difference> {
    check_refusal(fields, number)?;
    check_state(fields, before, desk_of(before))
}

// The scratch, against a u8: 0 where it is the one before the call, else it is zeros.
fn check_scratch(fields: &mut Fields, scratch: &[u8], before: &[u8]) -> Result<(), Difference> {
    let same = if fields.byte() == 0 {
        scratch == before
    } else {
        scratch.iter().all(|byte| *byte == 0)
    };
    check(same, Difference::Scratch)
}

// The number that joint loading answers: u8 refusal, u8 for the scratch, and the state, which it leaves.
pub fn check_both(
    fields: &mut Fields,
    words: Words,
    number: u32,
    scratch: &[u8],
    before: &[u8],
) -> Result<Words, Difference> {
    check_refusal(fields, number)?;
    check_scratch(fields, scratch, before)?;
    check_state(fields, words, desk_of(words))
}

// The reply to a run: u8 refusal, u32 count, and the state.
pub fn check_run(fields: &mut Fields, before: Words, reply: RunReply) -> Result<Words, Difference> {
    check_refusal(fields, answer_number(reply.answer))?;
    check_count(fields, reply.steps)?;
    check_state(fields, before, reply.desk)
}

// The place of the breakpoint that held a run, against u8 held and, where that is not 0, u32 place.
fn check_hold(fields: &mut Fields, place: Option<usize>) -> Result<(), Difference> {
    let expected = match fields.byte() {
        0 => None,
        1 => Some(fields.word() as usize),
        _ => return Err(Difference::Hold),
    };
    check(place == expected, Difference::Hold)
}

// The reply to a run with breakpoints: u8 refusal, u32 count, u8 held, u32 place where it was, and the
// state.
pub fn check_run_to(
    fields: &mut Fields,
    before: Words,
    reply: RunToReply,
) -> Result<Words, Difference> {
    check_refusal(fields, answer_number(reply.answer.map(|_| ())))?;
    check_count(fields, reply.steps)?;
    check_hold(fields, reply.answer.unwrap_or(None))?;
    check_state(fields, before, reply.desk)
}

// u8 kind: 0 for nothing special, which a refusal has too, 1 for an entry, 2 for a stop; u8 cause of
// an entry, u32 number of a stop. No event is of another kind.
fn event(fields: &mut Fields) -> Result<StepEvent, Difference> {
    match fields.byte() {
        0 => Ok(StepEvent::Done),
        1 => Ok(StepEvent::Entered(u32::from(fields.byte()))),
        2 => Ok(StepEvent::Stopped(fields.word())),
        _ => Err(Difference::Event),
    }
}

fn check_event(fields: &mut Fields, found: StepEvent) -> Result<(), Difference> {
    match (found, event(fields)?) {
        (StepEvent::Done, StepEvent::Done) => Ok(()),
        (StepEvent::Entered(a), StepEvent::Entered(b)) => check(a == b, Difference::Cause),
        (StepEvent::Stopped(a), StepEvent::Stopped(b)) => check(a == b, Difference::StopNumber),
        _ => Err(Difference::Event),
    }
}

// The words that an entry saved in mem, against changes.
fn check_saved(fields: &mut Fields, before: Words, mem: &[u8]) -> Result<(), Difference> {
    let expected = changed(fields, unsaved(before));
    let found = saved_in(mem, before);
    check(found[..SAVED] == expected[..SAVED], Difference::Saved)
}

// The reply to a step: u8 refusal, an event; for an entry the words that it saved, in mem; and the
// state.
pub fn check_step(
    fields: &mut Fields,
    before: Words,
    reply: StepReply,
    mem: &[u8],
) -> Result<Words, Difference> {
    check_refusal(fields, answer_number(reply.answer.map(|_| ())))?;
    let found = reply.answer.unwrap_or(StepEvent::Done);
    check_event(fields, found)?;
    if let StepEvent::Entered(_) = found {
        check_saved(fields, before, mem)?;
    }
    check_state(fields, before, reply.desk)
}

// The memory after the last call, against changes of the image, which model has.
pub fn check_memory(fields: &mut Fields, mem: &[u8], model: &mut [u8]) -> Result<(), Difference> {
    patch(model, fields);
    check(fields.is_filled(), Difference::Format)?;
    check(*mem == *model, Difference::Memory)
}
