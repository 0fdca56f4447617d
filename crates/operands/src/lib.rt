// The operands of a command, left to right: what each one's role takes from it.
#![tactic(auto)]

ghost use Rattle.std.specs.Prelude.{◌≡◌, ◌<◌, eqb};
ghost use Rattle.forms.specs.Answers.{SmallLocation, SmallPlace, SmallTarget, located_at, location_as};
ghost use Rattle.fetches.specs.Answers.{FetchedFrom};
ghost use Rattle.lookup.specs.Answers.{Fits};
ghost use Rattle.machine.specs.Map.{view_by};
ghost use Rattle.machine.specs.Operands.{at, immediate, operand_at, operands_of};
ghost use Rattle.machine.specs.Words.{length_of, pick};
ghost use Rattle.operands.specs.Answers.{SmallOperands, SmallTaken, TakesFrom, TakesMemory, TakesRegister};
ghost use Rattle.operands.specs.Answers.{operands_as, taken_as, taken_from, written_by};
ghost use Rattle.machine.specs.Code.{read_by};
ghost use Rattle.rules.specs.Rules.{rules_in};

use fetches::Start;
use forms::Location;
use machine::{Fault, Map, Role, Size, Target, VirtualAddress};
use rules::Rules;

// What one operand gives: a number, and where a result goes.
#[derive(Clone, Copy)]
pub struct Taken {
    pub number: u32,
    pub target: Target,
}

// What all operands give: the first's and the second's number, and where the last one's result
// goes.
#[derive(Clone, Copy)]
pub struct Operands {
    pub first: u32,
    pub second: u32,
    pub target: Target,
}

// The operand whose six bytes begin at R15, of the command at `start`.
fn operand(
    mem: &[u8],
    regs: &mut [u32; 16],
    status: u32,
    map: Map,
    start: Start,
    size: Size,
    place: u32,
) -> Result<Location, Fault>
    requires { Fits map mem.now × FetchedFrom (view_by status map mem.now) mem.now start }
    ensures location { location_as result regs.new
        ≡ operand_at (view_by status map mem.now) place (length_of size) regs.old }
    ensures small { SmallLocation result }
{
    let pc = regs[15];
    let fields = fetches::operand_fields(mem, status, map, VirtualAddress(pc), start)?;
    regs[15] = words::plus(pc, 6);
    forms::by_form(mem, regs, status, map, size.length(), place, fields)
}

// ---- What a role takes

// From an immediate value. It is no destination and has no address.
fn take_immediate(role: Role, place: u32, z: u32) -> Result<Taken, Fault>
    ensures value { TakesFrom result place role (immediate z) }
    ensures small { SmallTaken result }
{
    match role {
        Role::Value => Ok(Taken {
            number: z,
            target: Target::Nowhere,
        }),
        _ => Err(forms::misplaced(place)),
    }
}

// What a role takes of an operand's value: where it does not read, 0.
pub fn number(role: Role, n: u32) -> u32
    ensures { result ≡ pick (read_by role) n 0 }
{
    if rules::reads(role) { n } else { 0 }
}

// From register x, in which the operand's value is n. A register has no address.
fn take_register(role: Role, place: u32, x: u32, n: u32) -> Result<Taken, Fault>
    requires { x < 16 }
    ensures value { TakesRegister result place role x n }
    ensures small { SmallTaken result }
{
    if rules::writes(role) {
        return Ok(Taken {
            number: number(role, n),
            target: Target::Register(x),
        });
    }
    if rules::reads(role) {
        return Ok(Taken {
            number: n,
            target: Target::Nowhere,
        });
    }
    Err(forms::misplaced(place))
}

// Where a result for an operand in memory goes.
fn written(role: Role, a: VirtualAddress) -> Target
    ensures value { result ≡ written_by role a }
    ensures small { SmallTarget result }
{
    if rules::writes(role) {
        Target::Memory(a)
    } else {
        Target::Nowhere
    }
}

// From memory.
fn take_memory(
    mem: &[u8],
    status: u32,
    map: Map,
    size: Size,
    role: Role,
    a: VirtualAddress,
) -> Result<Taken, Fault>
    requires { Fits map mem.now }
    ensures value { TakesMemory result (view_by status map mem.now) (length_of size) role a }
    ensures small { SmallTaken result }
{
    let target = written(role, a);
    let number = if rules::reads(role) {
        reads::read(mem, status, map, a, size)?
    } else if rules::addresses(role) {
        a.0
    } else {
        0
    };
    Ok(Taken { number, target })
}

// What an operand's role takes from it.
fn take(
    mem: &[u8],
    regs: &[u32; 16],
    status: u32,
    map: Map,
    size: Size,
    role: Role,
    place: u32,
    location: Location,
) -> Result<Taken, Fault>
    requires { Fits map mem.now × SmallPlace location }
    ensures value { taken_as result
        ≡ taken_from (view_by status map mem.now) place (length_of size) role (at (located_at location) regs.now) }
    ensures small { SmallTaken result }
{
    match location {
        Location::Immediate(z) => take_immediate(role, place, z),
        Location::Register(x) => {
            let n = integers::low(size, regs[x as usize]);
            take_register(role, place, x, n)
        }
        Location::Memory(a) => take_memory(mem, status, map, size, role, a),
    }
}

// ---- All operands, left to right

// The new number at its own place, else the old one.
pub fn chosen(place: u32, own: u32, new: u32, old: u32) -> u32
    ensures { result ≡ pick (eqb place own) new old }
{
    if place == own { new } else { old }
}

// The operands that follow the command byte, from R15 on.
pub fn take_all(
    mem: &[u8],
    regs: &mut [u32; 16],
    status: u32,
    map: Map,
    start: Start,
    rules: Rules,
) -> Result<Operands, Fault>
    requires { Fits map mem.now × FetchedFrom (view_by status map mem.now) mem.now start }
    ensures value { operands_as result regs.new
        ≡ operands_of (view_by status map mem.now) (rules_in rules.number) regs.old }
    ensures small { SmallOperands result }
{
    let mut taken = Operands {
        first: 0,
        second: 0,
        target: Target::Nowhere,
    };
    let mut rest = rules;
    for place in 1..rules::count_in(rules.number) + 1 {
        let size = rules::size_in(rest.number);
        let role = rules::role_in(rest.number);
        let location = operand(mem, regs, status, map, start, size, place)?;
        let t = take(mem, regs, status, map, size, role, place, location)?;
        taken = Operands {
            first: chosen(place, 1, t.number, taken.first),
            second: chosen(place, 2, t.number, taken.second),
            target: t.target,
        };
        rest = rules::rest_of(rest);
    }
    Ok(taken)
}
