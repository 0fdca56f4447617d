// One command: byte, mode, operands, operation, writes. The working registers are lent; where the
// command alarms they are of no account, and the caller hands back the copy from the start.
#![tactic(auto)]

ghost use Rattle.std.specs.Prelude.{◌≡◌};
ghost use Rattle.commands.specs.Execution.{action_end, exec_of};
ghost use Rattle.commands.specs.Goals.{Aims, Attained, AttainedBy, Uniform, given_as, target_at};
ghost use Rattle.fetches.specs.Answers.{FetchedFrom};
ghost use Rattle.lookup.specs.Answers.{Fits};
ghost use Rattle.machine.specs.Alarms.{got};
ghost use Rattle.machine.specs.Commands.{stored};
ghost use Rattle.machine.specs.Map.{view_by};
ghost use Rattle.machine.specs.Operands.{operands_of};
ghost use Rattle.machine.specs.Words.{length_of};
ghost use Rattle.results.specs.Ends.{end_in, out_as};
ghost use Rattle.rules.specs.Rules.{rules_in};
ghost use Rattle.allforms.specs.Answers.{KeptUnsure};
ghost use Rattle.sure.specs.Answers.{ReachesAll, ReadyOf};

use actions::Action;
use fetches::Start;
use machine::{Alarm, Fault, IntegerResult, Map, RealAddress, Size, Target, VirtualAddress};
use results::Out;
use rules::{Rules, Table};
use sure::Goes;

// Where a result goes: to an address at which the place of a word was looked up for writing, as
// `sure` has it; or to a target that was not looked up, as `operands` has it.
#[derive(Clone, Copy)]
pub enum Goal {
    Found(VirtualAddress, RealAddress),
    Named(Target),
}

// What all operands give: the first's and the second's number, and where the last one's result
// goes.
#[derive(Clone, Copy)]
pub struct Given {
    pub first: u32,
    pub second: u32,
    pub goal: Goal,
}

fn goal_of(goes: Goes) -> Goal
    ensures { Aims goes result }
{
    match goes {
        Goes::Nowhere => Goal::Named(Target::Nowhere),
        Goes::Register(i) => Goal::Named(Target::Register(i)),
        Goes::Memory(a, r) => Goal::Found(a, r),
    }
}

// A result to where it goes.
fn put(
    mem: &mut [u8],
    regs: &mut [u32; 16],
    status: u32,
    map: Map,
    size: Size,
    x: IntegerResult,
    goal: Goal,
) -> Result<Out, Fault>
    requires { Fits map mem.old × Attained status map mem.old goal }
    ensures { out_as result regs.new mem.new
        ≡ end_in status map mem.old (λ v. got (stored (length_of size) x (target_at goal) regs.old)) }
{
    match goal {
        Goal::Found(_, r) => {
            words::value_to(mem, r.0 as usize, size, x.value);
            Ok(Out::Done(results::with_flags(status, x.flags)))
        }
        Goal::Named(t) => results::put(mem, regs, status, map, size, x, t),
    }
}

// What is left once the operation is known; x is the first operand's number.
fn finish(
    mem: &mut [u8],
    regs: &mut [u32; 16],
    status: u32,
    map: Map,
    x: u32,
    goal: Goal,
    what: Action,
) -> Result<Out, Fault>
    requires { Fits map mem.old × Attained status map mem.old goal }
    ensures { out_as result regs.new mem.new
        ≡ action_end status mem.old (view_by status map mem.old) regs.old x (target_at goal) what }
{
    match what {
        Action::Give(size, v) => put(mem, regs, status, map, size, v, goal),
        Action::Flags(f) => Ok(Out::Done(results::with_flags(status, f))),
        Action::Jump(taken) => {
            if taken {
                regs[15] = x;
            }
            Ok(Out::Done(status))
        }
        Action::Push => stack::push(mem, regs, status, map),
        Action::Pop => stack::pop(mem, regs, status, map),
        Action::Call => stack::call(mem, regs, status, map, x),
        Action::Return => stack::ret(mem, regs, status, map),
        Action::System => Ok(Out::System(x)),
        Action::Halt => Ok(Out::Halt),
        Action::Resume => Ok(Out::Resume(VirtualAddress(x))),
    }
}

// The operands, if they are words that surely give no alarm; else nothing has changed. Where there
// are none, no copy of the registers is made.
fn take_words(
    mem: &[u8],
    regs: &mut [u32; 16],
    status: u32,
    map: Map,
    start: Start,
    rules: Rules,
) -> Option<sure::Operands>
    requires fits { Fits map mem.now × FetchedFrom (view_by status map mem.now) mem.now start }
    requires uniform { Uniform rules.number }
    ensures value { ReadyOf (view_by status map mem.now) (rules_in rules.number)
        regs.old regs.new result }
    ensures reaches { ReachesAll 4 status map mem.now result }
    ensures kept { KeptUnsure regs.old regs.new result }
{
    // The count is the highest digit.
    if rules.number < 0x1000 {
        return None;
    }
    match rules::size_in(rules.number) {
        Size::W => allforms::take_all(mem, regs, status, map, start, rules),
        _ => None,
    }
}

// The operands that follow the command byte, from R15 on. Words without alarms are tried first; else
// the operands are taken from the first one on, with alarms.
fn take(
    mem: &[u8],
    regs: &mut [u32; 16],
    status: u32,
    map: Map,
    start: Start,
    rules: Rules,
) -> Result<Given, Fault>
    requires fits { Fits map mem.now × FetchedFrom (view_by status map mem.now) mem.now start }
    requires uniform { Uniform rules.number }
    ensures value { given_as result regs.new
        ≡ operands_of (view_by status map mem.now) (rules_in rules.number) regs.old }
    ensures attained { AttainedBy status map mem.now result }
{
    if let Some(o) = take_words(mem, regs, status, map, start, rules) {
        return Ok(Given {
            first: o.first,
            second: o.second,
            goal: goal_of(o.goes),
        });
    }
    let o = operands::take_all(mem, regs, status, map, start, rules)?;
    Ok(Given {
        first: o.first,
        second: o.second,
        goal: Goal::Named(o.target),
    })
}

// The command at R15, by the lent table of rules. Where it alarms the registers are of no account.
pub fn command(
    mem: &mut [u8],
    regs: &mut [u32; 16],
    status: u32,
    map: Map,
    table: &Table,
) -> Result<Out, Fault>
    requires { Fits map mem.old }
    ensures { out_as result regs.new mem.new
        ≡ exec_of status map regs.old mem.old }
{
    let pc = regs[15];
    let address = VirtualAddress(pc);
    let (b, place) = fetches::fetch(mem, status, map, address)?;
    let start = Start { address, place };
    regs[15] = words::plus(pc, 1);
    if 0x80 <= b {
        return floating::command(mem, regs, status, map, table, start, b);
    }
    if rules::forbidden(b, status) {
        return Err(Fault {
            alarm: Alarm::Mode,
            argument: b,
        });
    }
    let o = take(mem, regs, status, map, start, rules::rules_of(table, b))?;
    let what = actions::action_of(b, status % 16, o.first, o.second)?;
    finish(mem, regs, status, map, o.first, o.goal, what)
}
