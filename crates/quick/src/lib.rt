// The quick way: the command at R15, if it surely ends quietly: its new status. Its operands surely
// give no alarm, every place that it uses is found before anything but R15 changes, and then nothing
// can fail. Where it is not sure, None: R15 is put back, and nothing has changed.
#![tactic(auto)]

ghost use Rattle.std.specs.Prelude.{◌≡◌, ◌%◌, ◌<◌};
ghost use Rattle.commands.specs.Execution.{action_end};
ghost use Rattle.fetches.specs.Answers.{FetchedFrom};
ghost use Rattle.lookup.specs.Answers.{Fits};
ghost use Rattle.machine.specs.Alarms.{got};
ghost use Rattle.machine.specs.Commands.{called, returned_done};
ghost use Rattle.machine.specs.Map.{view_by};
ghost use Rattle.machine.specs.State.{flags_of};
ghost use Rattle.machine.specs.Code.{known};
ghost use Rattle.machine.specs.Words.{length_of, size_at};
ghost use Rattle.quick.specs.Quietly.{CarriesOut, Ends, Finishes, Quietly};
ghost use Rattle.results.specs.Ends.{end_in};
ghost use Rattle.rules.specs.Rules.{AllOf, known_rules, rules_in, size_in, size_of};
ghost use Rattle.sure.specs.Answers.{Reaches, target_of};

use actions::Action;
use effects::NarrowEffect;
use fetches::Start;
use machine::{Access, IntegerResult, Map, Size, VirtualAddress};
use rules::{Rules, Table};
use sure::Goes;

// ---- The writes

// A result to its target; what is written to memory was looked up.
fn put(
    mem: &mut [u8],
    regs: &mut [u32; 16],
    status: u32,
    map: Map,
    size: Size,
    x: IntegerResult,
    goes: Goes,
) -> u32
    requires { Fits map mem.old × Reaches (length_of size) status map mem.old goes }
    ensures { Ends (length_of size) status map mem.old regs.old x (target_of goes)
        regs.new result mem.new }
{
    let s = results::with_flags(status, x.flags);
    match goes {
        Goes::Nowhere => s,
        Goes::Register(i) => {
            let k = i as usize;
            regs[k] = results::kept_rest(size, regs[k], x.value);
            s
        }
        Goes::Memory(_, r) => {
            words::value_to(mem, r.0 as usize, size, x.value);
            s
        }
    }
}

// CALL of address a, where the word below SP lies in one page that may be written.
fn call(mem: &mut [u8], regs: &mut [u32; 16], status: u32, map: Map, a: u32) -> Option<u32>
    requires { Fits map mem.old }
    ensures { Finishes
        (end_in status map mem.old (λ v. got (called a regs.old (flags_of status))))
        regs.old mem.old regs.new mem.new result }
{
    let sp = words::minus(regs[14], 4);
    let found = lookup::look_whole(mem, status, map, VirtualAddress(sp), 4, Access::Write);
    let Ok(Some(r)) = found else {
        return None;
    };
    words::value_to(mem, r.0 as usize, Size::W, regs[15]);
    regs[14] = sp;
    regs[15] = a;
    Some(status)
}

// RET, where the word at SP lies in one page that may be read.
fn ret(mem: &[u8], regs: &mut [u32; 16], status: u32, map: Map) -> Option<u32>
    requires { Fits map mem.now }
    ensures { Finishes
        (end_in status map mem.now (λ v. returned_done v regs.old (flags_of status)))
        regs.old mem.now regs.new mem.now result }
{
    let sp = regs[14];
    let found = lookup::look_whole(mem, status, map, VirtualAddress(sp), 4, Access::Read);
    let Ok(Some(r)) = found else {
        return None;
    };
    regs[15] = words::word(mem, r.0 as usize);
    regs[14] = words::plus(sp, 4);
    Some(status)
}

// What is left of a command on words once its operation is known; x is the first operand's number.
fn finish(
    mem: &mut [u8],
    regs: &mut [u32; 16],
    status: u32,
    map: Map,
    x: u32,
    goes: Goes,
    what: Action,
) -> Option<u32>
    requires { Fits map mem.old × Reaches 4 status map mem.old goes }
    ensures { Finishes
        (action_end status mem.old (view_by status map mem.old) regs.old x (target_of goes) what)
        regs.old mem.old regs.new mem.new result }
{
    match what {
        Action::Give(Size::W, v) => Some(put(mem, regs, status, map, Size::W, v, goes)),
        Action::Flags(f) => Some(results::with_flags(status, f)),
        Action::Jump(taken) => {
            if taken {
                regs[15] = x;
            }
            Some(status)
        }
        Action::Call => call(mem, regs, status, map, x),
        Action::Return => ret(mem, regs, status, map),
        _ => None,
    }
}

// ---- The command

// The command on words, the jump, CALL or RET of byte b at `start`, by its operand rules; R15 is past
// the byte. Where it is unsure, R15 alone has changed.
fn carry_out_words(
    mem: &mut [u8],
    regs: &mut [u32; 16],
    status: u32,
    map: Map,
    start: Start,
    b: u32,
    rules: Rules,
) -> Option<u32>
    requires fits { Fits map mem.old × FetchedFrom (view_by status map mem.old) mem.old start }
    requires all_of { AllOf Size.W (rules_in rules.number) }
    ensures { CarriesOut status map b (rules_in rules.number) regs.old mem.old
        regs.new mem.new result }
{
    let o = sure::take_all(mem, regs, status, map, start, Size::W, rules)?;
    let what = effects::effect_of(b, status % 16, o.first, o.second)?;
    finish(mem, regs, status, map, o.first, o.goes, what)
}

// The same for a command on bytes or halfwords, whose size is that of its byte.
fn carry_out_narrow(
    mem: &mut [u8],
    regs: &mut [u32; 16],
    status: u32,
    map: Map,
    start: Start,
    b: u32,
    rules: Rules,
) -> Option<u32>
    requires fits { Fits map mem.old × FetchedFrom (view_by status map mem.old) mem.old start }
    requires rules_value { (size_in rules.number ≡ size_at (b % 4))
        × AllOf (size_in rules.number) (rules_in rules.number) }
    ensures { CarriesOut status map b (rules_in rules.number) regs.old mem.old
        regs.new mem.new result }
{
    let size = rules::size_in(rules.number);
    let o = sure::take_all(mem, regs, status, map, start, size, rules)?;
    match effects::narrow_effect_of(b, o.first, o.second)? {
        NarrowEffect::Gives(v) => Some(put(mem, regs, status, map, size, v, o.goes)),
        NarrowEffect::Flags(f) => Some(results::with_flags(status, f)),
    }
}

// The same for any command, by the size of its first operand, which all its operands have; but CONV
// (0x21), from a byte to a word, is left to the general way.
fn carry_out(
    mem: &mut [u8],
    regs: &mut [u32; 16],
    status: u32,
    map: Map,
    start: Start,
    b: u32,
    rules: Rules,
) -> Option<u32>
    requires fits { Fits map mem.old × FetchedFrom (view_by status map mem.old) mem.old start }
    requires b_bound { (b < 256) × (rules_in rules.number ≡ known_rules (known b))
        × (size_in rules.number ≡ size_of (known_rules (known b))) }
    ensures { CarriesOut status map b (rules_in rules.number) regs.old mem.old
        regs.new mem.new result }
{
    match rules::size_in(rules.number) {
        Size::W => carry_out_words(mem, regs, status, map, start, b, rules),
        _ => {
            if b == 0x21 {
                return None;
            }
            carry_out_narrow(mem, regs, status, map, start, b, rules)
        }
    }
}

// The command at R15, by the lent table of rules.
pub fn command(
    mem: &mut [u8],
    regs: &mut [u32; 16],
    status: u32,
    map: Map,
    table: &Table,
) -> Option<u32>
    requires { Fits map mem.old }
    ensures { Quietly status map regs.old mem.old
        regs.new mem.new result }
{
    let pc = regs[15];
    let address = VirtualAddress(pc);
    let Ok((b, place)) = fetches::fetch(mem, status, map, address) else {
        return None;
    };
    // Below are the commands of one mode, PUSHR and POPR. A byte from 0x80 on has no rules here, and
    // `effect_of` does not know it.
    if b < 0x10 {
        return None;
    }
    let start = Start { address, place };
    regs[15] = words::plus(pc, 1);
    let done = carry_out(mem, regs, status, map, start, b, rules::rules_of(table, b));
    if done.is_none() {
        regs[15] = pc;
    }
    done
}
