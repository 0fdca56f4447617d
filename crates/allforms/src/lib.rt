// Operands that surely give no alarm: words in all nine forms, whose six bytes lie in the command's
// page, each in a register, immediate, or in one page that may be used so. Registers are stepped as
// the operands are taken. All else is unsure: None; then nothing has changed. (`sure` has the forms 0
// to 3 alone, and needs no copy of the registers.)
#![tactic(auto)]

ghost use Rattle.fetches.specs.Answers.{FetchedFrom, named};
ghost use Rattle.lookup.specs.Answers.{Fits};
ghost use Rattle.machine.specs.declared.Access.TheVariants.{Read};
ghost use Rattle.machine.specs.Map.{read_bytes, view_by};
ghost use Rattle.rules.specs.Rules.{AllOf, rules_in};
ghost use Rattle.allforms.specs.Answers.{KeptUnsure, PointedBy};
ghost use Rattle.sure.specs.Answers.{OperandOf, ReachesAll, ReachesTaken, ReadyOf, SmallSpot, SpotFrom};

use fetches::{Fields, Start};
use machine::{Access, Map, Role, Size, VirtualAddress};
use rules::Rules;
use sure::{Operands, Spot, Taken};

// ---- Where an operand is

// Behind the word at an address: the address that it holds, `more` bytes further on.
fn behind(mem: &[u8], status: u32, map: Map, a: VirtualAddress, more: u32) -> Option<Spot>
    requires { Fits map mem.now }
    ensures { PointedBy (read_bytes (view_by status map mem.now) Access.Read 4 a) more result }
{
    let found = lookup::look_whole(mem, status, map, a, 4, Access::Read);
    let Ok(Some(r)) = found else {
        return None;
    };
    let w = words::word(mem, r.0 as usize);
    Some(Spot::Memory(VirtualAddress(words::plus(w, more))))
}

// Where an operand is, over registers with R15 past it; the forms 7 and 8 step one of them. The
// forms 0 to 3 are those of `sure`.
fn locate(mem: &[u8], regs: &mut [u32; 16], status: u32, map: Map, fields: Fields) -> Option<Spot>
    requires { Fits map mem.now }
    ensures spot { SpotFrom (view_by status map mem.now) 4 (named fields) regs.old regs.new result }
    ensures small { SmallSpot result }
{
    let Fields { form, x, y, z } = fields;
    let i = x as usize;
    let rx = regs[i];
    let ry = regs[y as usize];
    match form {
        4 => {
            let a = words::plus(words::plus(z, rx), forms::scaled(ry, 4));
            Some(Spot::Memory(VirtualAddress(a)))
        }
        5 if y == 0 => behind(mem, status, map, VirtualAddress(words::plus(z, rx)), 0),
        6 => {
            let a = VirtualAddress(words::plus(z, rx));
            behind(mem, status, map, a, forms::scaled(ry, 4))
        }
        7 if forms::can_step(x, y, z) => {
            let a = words::minus(rx, 4);
            regs[i] = a;
            Some(Spot::Memory(VirtualAddress(a)))
        }
        8 if forms::can_step(x, y, z) => {
            regs[i] = words::plus(rx, 4);
            Some(Spot::Memory(forms::address(rx)))
        }
        _ => sure::locate(regs, fields),
    }
}

// ---- All operands, left to right

// The operand whose six bytes begin at R15; R15 goes past them.
fn operand(
    mem: &[u8],
    regs: &mut [u32; 16],
    status: u32,
    map: Map,
    start: Start,
    role: Role,
) -> Option<Taken>
    requires { Fits map mem.now × FetchedFrom (view_by status map mem.now) mem.now start }
    ensures value { OperandOf (view_by status map mem.now) 4 role regs.old regs.new result }
    ensures reaches { ReachesTaken 4 status map mem.now result }
{
    let pc = regs[15];
    let fields = fetches::near(mem, status, map, VirtualAddress(pc), start)?;
    regs[15] = words::plus(pc, 6);
    let spot = locate(mem, regs, status, map, fields)?;
    sure::take(mem, status, map, Size::W, role, spot)
}

// One after another; where that is unsure, the registers are of no account.
fn take_each(
    mem: &[u8],
    regs: &mut [u32; 16],
    status: u32,
    map: Map,
    start: Start,
    rules: Rules,
) -> Option<Operands>
    requires fits { Fits map mem.now × FetchedFrom (view_by status map mem.now) mem.now start }
    requires all_of { AllOf Size.W (rules_in rules.number) }
    ensures value { ReadyOf (view_by status map mem.now) (rules_in rules.number)
        regs.old regs.new result }
    ensures reaches { ReachesAll 4 status map mem.now result }
{
    let mut all = Operands::NONE;
    let mut rest = rules;
    for place in 1..rules::count_in(rules.number) + 1 {
        let taken = operand(mem, regs, status, map, start, rules::role_in(rest.number))?;
        all = sure::with(all, place, taken);
        rest = rules::rest_of(rest);
    }
    Some(all)
}

// The operands that follow the command byte, all words, from R15 on.
pub fn take_all(
    mem: &[u8],
    regs: &mut [u32; 16],
    status: u32,
    map: Map,
    start: Start,
    rules: Rules,
) -> Option<Operands>
    requires fits { Fits map mem.now × FetchedFrom (view_by status map mem.now) mem.now start }
    requires all_of { AllOf Size.W (rules_in rules.number) }
    ensures value { ReadyOf (view_by status map mem.now) (rules_in rules.number)
        regs.old regs.new result }
    ensures reaches { ReachesAll 4 status map mem.now result }
    ensures kept { KeptUnsure regs.old regs.new result }
{
    let saved = *regs;
    let all = take_each(mem, regs, status, map, start, rules);
    if all.is_none() {
        *regs = saved;
    }
    all
}
