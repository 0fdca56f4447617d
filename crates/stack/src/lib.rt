// The commands of the stack: PUSHR, POPR, CALL, RET.
#![tactic(auto)]

ghost use Rattle.std.specs.Prelude.{◌≡◌, [], ◌++◌, ◌∷◌, ◌+◌, ◌≤◌, length};
ghost use Rattle.std.proofs.lemmas.List.Edits.{sets};
ghost use Rattle.lookup.specs.Answers.{Fits};
ghost use Rattle.machine.specs.Alarms.{got};
ghost use Rattle.machine.specs.Commands.{called, popped_done, pushed, returned_done};
ghost use Rattle.machine.specs.State.{flags_of, reg};
ghost use Rattle.machine.specs.Words.{bytes_of_words, raised, word_at, words_at};
ghost use Rattle.results.specs.Ends.{end_in, out_as};
ghost use Rattle.stack.specs.Rows.{row_of};
ghost use Rattle.stores.specs.Answers.{stored_as, stored_in};

use machine::{Access, Fault, Map, Size, VirtualAddress};
use results::Out;

// R0 to R13 and SP lowered once, word by word, to the places from `at` on.
fn lay(bytes: &mut [u8], regs: &[u32; 16], at: usize)
    requires { at + 60 ≤ length bytes.old }
    ensures { bytes.new ≡ sets bytes.old at (bytes_of_words (row_of regs.now)) }
{
    for i in 0..14 {
        words::value_to(bytes, at + 4 * i, Size::W, regs[i]);
    }
    words::value_to(bytes, at + 56, Size::W, words::minus(regs[14], 4));
}

// The words of PUSHR to the addresses from x on, each byte looked up by itself: they may lie in two
// pages, and no byte is written before all are looked up.
fn push_each(
    mem: &mut [u8],
    regs: &[u32; 16],
    status: u32,
    map: Map,
    x: VirtualAddress,
) -> Result<(), Fault>
    requires { Fits map mem.old }
    ensures { stored_as result mem.new
        ≡ stored_in status map mem.old x (bytes_of_words (row_of regs.now)) }
{
    let mut bytes = [0u8; 60];
    lay(&mut bytes, regs, 0);
    stores::store_each(mem, status, map, x, &bytes)
}

// The words of PUSHR to the addresses from x on.
fn push_all(
    mem: &mut [u8],
    regs: &[u32; 16],
    status: u32,
    map: Map,
    x: VirtualAddress,
) -> Result<(), Fault>
    requires { Fits map mem.old }
    ensures { stored_as result mem.new
        ≡ stored_in status map mem.old x (bytes_of_words (row_of regs.now)) }
{
    match lookup::look_whole(mem, status, map, x, 60, Access::Write)? {
        Some(r) => {
            lay(mem, regs, r.0 as usize);
            Ok(())
        }
        None => push_each(mem, regs, status, map, x),
    }
}

pub fn push(mem: &mut [u8], regs: &mut [u32; 16], status: u32, map: Map) -> Result<Out, Fault>
    requires { Fits map mem.old }
    ensures { out_as result regs.new mem.new
        ≡ end_in status map mem.old
        (λ v. got (pushed 15 (reg regs.old 14) regs.old [] (flags_of status))) }
{
    let low = words::minus(regs[14], 60);
    push_all(mem, regs, status, map, VirtualAddress(low))?;
    regs[14] = low;
    Ok(Out::Done(status))
}

// The words from a place on to R0 to R14. The last is a new SP, which POPR raises.
fn fill(mem: &[u8], regs: &mut [u32; 16], at: usize)
    requires { at + 60 ≤ length mem.now }
    ensures { regs.new ≡ sets regs.old 0
        (words_at 14 mem.now at ++ raised (word_at mem.now (at + 56)) 4 ∷ []) }
{
    for i in 0..14 {
        regs[i] = words::word(mem, at + 4 * i);
    }
    regs[14] = words::plus(words::word(mem, at + 56), 4);
}

// The words of POPR, each read by itself: they may lie in two pages. Apart from `pop`, which seldom
// comes to it.
fn pop_each(mem: &[u8], regs: &mut [u32; 16], status: u32, map: Map) -> Result<Out, Fault>
    requires { Fits map mem.now }
    ensures { out_as result regs.new mem.now
        ≡ end_in status map mem.now (λ v. popped_done v regs.old (flags_of status)) }
{
    for i in 0..15 {
        regs[i] = reads::read(mem, status, map, VirtualAddress(regs[14]), Size::W)?;
        regs[14] = words::plus(regs[14], 4);
    }
    Ok(Out::Done(status))
}

pub fn pop(mem: &[u8], regs: &mut [u32; 16], status: u32, map: Map) -> Result<Out, Fault>
    requires { Fits map mem.now }
    ensures { out_as result regs.new mem.now
        ≡ end_in status map mem.now (λ v. popped_done v regs.old (flags_of status)) }
{
    match lookup::look_whole(mem, status, map, VirtualAddress(regs[14]), 60, Access::Read)? {
        Some(r) => {
            fill(mem, regs, r.0 as usize);
            Ok(Out::Done(status))
        }
        None => pop_each(mem, regs, status, map),
    }
}

pub fn call(
    mem: &mut [u8],
    regs: &mut [u32; 16],
    status: u32,
    map: Map,
    a: u32,
) -> Result<Out, Fault>
    requires { Fits map mem.old }
    ensures { out_as result regs.new mem.new
        ≡ end_in status map mem.old (λ v. got (called a regs.old (flags_of status))) }
{
    let sp = words::minus(regs[14], 4);
    stores::store(mem, status, map, VirtualAddress(sp), Size::W, regs[15])?;
    regs[14] = sp;
    regs[15] = a;
    Ok(Out::Done(status))
}

pub fn ret(mem: &[u8], regs: &mut [u32; 16], status: u32, map: Map) -> Result<Out, Fault>
    requires { Fits map mem.now }
    ensures { out_as result regs.new mem.now
        ≡ end_in status map mem.now (λ v. returned_done v regs.old (flags_of status)) }
{
    let sp = regs[14];
    regs[15] = reads::read(mem, status, map, VirtualAddress(sp), Size::W)?;
    regs[14] = words::plus(sp, 4);
    Ok(Out::Done(status))
}
