// Operands that surely give no alarm: of one size, in the forms 0 to 3, whose six bytes lie in the
// command's page, each in a register, immediate, or in one page that may be used so. All else is
// unsure, of which nothing is said: None. Only R15 changes. (`allforms` has words in the other forms
// too.)
#![tactic(auto)]

ghost use Rattle.std.specs.Prelude.{◌≡◌, ◌<◌};
ghost use Rattle.fetches.specs.Answers.{FetchedFrom, named};
ghost use Rattle.lookup.specs.Answers.{Fits};
ghost use Rattle.machine.specs.Map.{view_by};
ghost use Rattle.machine.specs.Operands.{memory};
ghost use Rattle.machine.specs.Words.{length_of};
ghost use Rattle.rules.specs.Rules.{AllOf, rules_in};
ghost use Rattle.sure.specs.Answers.{OnlyR15, OperandOf, ReachesAll, ReachesTaken, ReadyOf, SmallPlace, SmallSpot};
ghost use Rattle.sure.specs.Answers.{SpotOf, TakenFrom, TakenOf, access_of, with_operand};

use fetches::{Fields, Start};
use machine::{Access, Map, RealAddress, Role, Size, VirtualAddress};
use rules::Rules;

// Where an operand is: its number; a register and what it holds; its address.
#[derive(Clone, Copy)]
pub enum Spot {
    Number(u32),
    Register(u32, u32),
    Memory(VirtualAddress),
}

// Where a result goes; in memory to an address and the place that was looked up for writing.
#[derive(Clone, Copy)]
pub enum Goes {
    Nowhere,
    Register(u32),
    Memory(VirtualAddress, RealAddress),
}

// What one operand gives.
#[derive(Clone, Copy)]
pub struct Taken {
    pub number: u32,
    pub goes: Goes,
}

// What all operands give: the first's and the second's number, and where the last one's result
// goes.
#[derive(Clone, Copy)]
pub struct Operands {
    pub first: u32,
    pub second: u32,
    pub goes: Goes,
}

impl Operands {
    // Before the first one.
    pub const NONE: Operands = Operands {
        first: 0,
        second: 0,
        goes: Goes::Nowhere,
    };
}

// Where an operand of any size is, over registers with R15 past it; whether a number fits the size is
// left to its taker.
#[inline(always)]
pub fn locate(regs: &[u32; 16], fields: Fields) -> Option<Spot>
    ensures spot { SpotOf regs.now (named fields) result }
    ensures small { SmallSpot result }
{
    let Fields { form, x, y, z } = fields;
    match form {
        0 if x == 0 && y == 0 => Some(Spot::Memory(VirtualAddress(z))),
        1 if x == 0 && y == 0 => Some(Spot::Number(z)),
        2 if y == 0 && z == 0 => Some(Spot::Register(x, regs[x as usize])),
        3 if y == 0 => Some(Spot::Memory(VirtualAddress(words::plus(z, regs[x as usize])))),
        _ => None,
    }
}

// ---- What a role takes

// Why it looks up an operand in memory: one that it writes for writing, which allows reading too, so
// that an update needs one lookup.
pub fn access(role: Role) -> Access
    ensures { result ≡ access_of role }
{
    if rules::writes(role) {
        Access::Write
    } else {
        Access::Read
    }
}

// From memory.
#[inline(always)]
fn take_memory(
    mem: &[u8],
    status: u32,
    map: Map,
    size: Size,
    role: Role,
    a: VirtualAddress,
) -> Option<Taken>
    requires { Fits map mem.now }
    ensures value { TakenFrom (view_by status map mem.now) (length_of size) role (memory a) result }
    ensures reaches { ReachesTaken (length_of size) status map mem.now result }
{
    if rules::addresses(role) {
        return Some(Taken {
            number: a.0,
            goes: Goes::Nowhere,
        });
    }
    let found = lookup::look_whole(mem, status, map, a, size.length(), access(role));
    let Ok(Some(r)) = found else {
        return None;
    };
    let number = operands::number(role, words::value_at(mem, r.0 as usize, size));
    let goes = if rules::writes(role) {
        Goes::Memory(a, r)
    } else {
        Goes::Nowhere
    };
    Some(Taken { number, goes })
}

// A number that fits the size serves as a value alone; a register has no address.
#[inline(always)]
pub fn take(mem: &[u8], status: u32, map: Map, size: Size, role: Role, spot: Spot) -> Option<Taken>
    requires { Fits map mem.now × SmallPlace spot }
    ensures value { TakenOf (view_by status map mem.now) (length_of size) role spot result }
    ensures reaches { ReachesTaken (length_of size) status map mem.now result }
{
    match spot {
        Spot::Number(z) => match role {
            Role::Value if (z as u64) < integers::span_of(size) => Some(Taken {
                number: z,
                goes: Goes::Nowhere,
            }),
            _ => None,
        },
        Spot::Register(x, n) => {
            if rules::addresses(role) {
                return None;
            }
            let number = operands::number(role, integers::low(size, n));
            let goes = if rules::writes(role) {
                Goes::Register(x)
            } else {
                Goes::Nowhere
            };
            Some(Taken { number, goes })
        }
        Spot::Memory(a) => take_memory(mem, status, map, size, role, a),
    }
}

// ---- All operands, left to right

// The operands so far, with the one at a place.
#[inline(always)]
pub fn with(so_far: Operands, place: u32, taken: Taken) -> Operands
    ensures { result ≡ with_operand so_far place taken }
{
    Operands {
        first: operands::chosen(place, 1, taken.number, so_far.first),
        second: operands::chosen(place, 2, taken.number, so_far.second),
        goes: taken.goes,
    }
}

// The operand whose six bytes begin at R15; R15 goes past them.
#[inline(always)]
fn operand(
    mem: &[u8],
    regs: &mut [u32; 16],
    status: u32,
    map: Map,
    start: Start,
    size: Size,
    role: Role,
) -> Option<Taken>
    requires { Fits map mem.now × FetchedFrom (view_by status map mem.now) mem.now start }
    ensures value { OperandOf (view_by status map mem.now) (length_of size) role regs.old regs.new result }
    ensures reaches { ReachesTaken (length_of size) status map mem.now result }
    ensures only { OnlyR15 regs.old regs.new }
{
    let pc = regs[15];
    let fields = fetches::near(mem, status, map, VirtualAddress(pc), start)?;
    regs[15] = words::plus(pc, 6);
    let spot = locate(regs, fields)?;
    take(mem, status, map, size, role, spot)
}

// The operands that follow the command byte, all of this size, from R15 on. Made part of each caller,
// so that the size of words is a constant there.
#[inline(always)]
pub fn take_all(
    mem: &[u8],
    regs: &mut [u32; 16],
    status: u32,
    map: Map,
    start: Start,
    size: Size,
    rules: Rules,
) -> Option<Operands>
    requires fits { Fits map mem.now × FetchedFrom (view_by status map mem.now) mem.now start }
    requires all_of { AllOf size (rules_in rules.number) }
    ensures value { ReadyOf (view_by status map mem.now) (rules_in rules.number)
        regs.old regs.new result }
    ensures reaches { ReachesAll (length_of size) status map mem.now result }
    ensures only { OnlyR15 regs.old regs.new }
{
    let mut all = Operands::NONE;
    let mut rest = rules;
    for place in 1..rules::count_in(rules.number) + 1 {
        let taken = operand(
            mem,
            regs,
            status,
            map,
            start,
            size,
            rules::role_in(rest.number),
        )?;
        all = with(all, place, taken);
        rest = rules::rest_of(rest);
    }
    Some(all)
}
