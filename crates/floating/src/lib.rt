// One floating command, once its byte is fetched: operands, operation, result. Lookups and forms are
// those of the commands on integers.
#![tactic(auto)]

ghost use Rattle.std.specs.Prelude.{◌≡◌, ◌<◌, ◌≤◌, eqb};
ghost use Rattle.doubles.specs.Answers.{bits_as};
ghost use Rattle.fetches.specs.Answers.{FetchedFrom, named};
ghost use Rattle.floating.specs.Answers.{SmallOperands, SmallTaken, TakesMemory, float_action, float_taken_from};
ghost use Rattle.floating.specs.Answers.{operands_as, taken_as};
ghost use Rattle.forms.specs.Answers.{SmallLocation, SmallPlace, SmallTarget, located_at, location_as};
ghost use Rattle.lookup.specs.Answers.{Fits};
ghost use Rattle.machine.specs.Alarms.{got};
ghost use Rattle.machine.specs.declared.Access.TheVariants.{Read};
ghost use Rattle.machine.specs.Code.{read_by, written_to};
ghost use Rattle.machine.specs.Commands.{float_command, float_stored};
ghost use Rattle.machine.specs.FloatCode.{bits_in_register, bits_to_register, excluded, float_operand_at};
ghost use Rattle.machine.specs.FloatCode.{float_operands_of, next_register};
ghost use Rattle.machine.specs.Map.{read_bytes, view_by};
ghost use Rattle.machine.specs.Operands.{at};
ghost use Rattle.machine.specs.Words.{bytes_of, kind_length, pick};
ghost use Rattle.results.specs.Ends.{end_in, out_as};
ghost use Rattle.rules.specs.Rules.{roles_in};
ghost use Rattle.stores.specs.Answers.{stored_as, stored_in};

use fetches::{Fields, Start};
use forms::Location;
use machine::{
    Alarm, Arithmetic, Fault, FloatResult, Kind, Map, Role, Size, Target, VirtualAddress,
};
use results::Out;
use rules::{Rules, Table};

// What one operand gives: its bits, and where a result goes.
#[derive(Clone, Copy)]
pub struct Taken {
    pub bits: u64,
    pub target: Target,
}

// What all operands give: the first's and the second's bits, and where the last one's result goes.
#[derive(Clone, Copy)]
pub struct Operands {
    pub first: u64,
    pub second: u64,
    pub target: Target,
}

// What a floating command does with its operands' bits.
#[derive(Clone, Copy)]
pub enum Action {
    // A result for the target.
    Give(FloatResult),
    // New flags alone.
    Flags(u32),
}

// ---- Operands

// Alarm 14 for form 1 with D, and in form 2 for register 15 with F, 14 or 15 with D.
fn is_excluded(kind: Kind, fields: Fields) -> bool
    ensures { result ≡ excluded kind (named fields) }
{
    match kind {
        Kind::F => (fields.form == 2) & (fields.x == 15),
        Kind::D => (fields.form == 1) | ((fields.form == 2) & (14 <= fields.x)),
    }
}

// The operand whose six bytes begin at R15, of the command at `start`.
fn operand(
    mem: &[u8],
    regs: &mut [u32; 16],
    status: u32,
    map: Map,
    start: Start,
    kind: Kind,
    place: u32,
) -> Result<Location, Fault>
    requires { Fits map mem.now × FetchedFrom (view_by status map mem.now) mem.now start }
    ensures location { location_as result regs.new
        ≡ float_operand_at (view_by status map mem.now) place kind regs.old }
    ensures small { SmallLocation result }
{
    let pc = regs[15];
    let fields = fetches::operand_fields(mem, status, map, VirtualAddress(pc), start)?;
    if is_excluded(kind, fields) {
        return Err(forms::misplaced(place));
    }
    regs[15] = words::plus(pc, 6);
    forms::by_form(mem, regs, status, map, kind.length(), place, fields)
}

// The register after x.
fn next(x: u32) -> usize
    ensures place { result ≡ next_register x }
    ensures small { result < 16 }
{
    ((x as u64 + 1) % 16) as usize
}

fn wide(x: u32) -> u64
    ensures { result ≡ x }
{
    x as u64
}

// The bits in register x, and of a D in the next one.
fn in_register(regs: &[u32; 16], kind: Kind, x: u32) -> u64
    requires { x < 16 }
    ensures { result ≡ bits_in_register kind regs.now x }
{
    let i = x as usize;
    match kind {
        Kind::F => wide(regs[i]),
        Kind::D => {
            let j = next(x);
            doubles::joined(regs[i], regs[j])
        }
    }
}

// What a role takes of an operand's bits: where it does not read, 0.
fn bits_for(role: Role, n: u64) -> u64
    ensures { result ≡ pick (read_by role) n 0 }
{
    if rules::reads(role) { n } else { 0 }
}

// Where a role's result goes, of an operand at t: where it does not write, nowhere.
fn target_for(role: Role, t: Target) -> Target
    requires { SmallTarget t }
    ensures value { result ≡ pick (written_to role) t Target.Nowhere }
    ensures small { SmallTarget result }
{
    if rules::writes(role) {
        return t;
    }
    Target::Nowhere
}

// The value of a kind at an address. `Ok(..?)` here and in `take` makes the answer of a call anew, so
// that the others stay in registers.
fn read(mem: &[u8], status: u32, map: Map, kind: Kind, a: VirtualAddress) -> Result<u64, Fault>
    requires { Fits map mem.now }
    ensures { bits_as result ≡ read_bytes (view_by status map mem.now) Read (kind_length kind) a }
{
    match kind {
        Kind::F => Ok(wide(reads::read(mem, status, map, a, Size::W)?)),
        Kind::D => Ok(doubles::read(mem, status, map, a)?),
    }
}

// From memory.
fn take_memory(
    mem: &[u8],
    status: u32,
    map: Map,
    kind: Kind,
    role: Role,
    a: VirtualAddress,
) -> Result<Taken, Fault>
    requires { Fits map mem.now }
    ensures value { TakesMemory result (view_by status map mem.now) kind role a }
    ensures small { SmallTaken result }
{
    let target = target_for(role, Target::Memory(a));
    let bits = if rules::reads(role) {
        read(mem, status, map, kind, a)?
    } else {
        0
    };
    Ok(Taken { bits, target })
}

// What an operand's role takes from it.
fn take(
    mem: &[u8],
    regs: &[u32; 16],
    status: u32,
    map: Map,
    kind: Kind,
    role: Role,
    place: u32,
    location: Location,
) -> Result<Taken, Fault>
    requires { Fits map mem.now × SmallPlace location }
    ensures value { taken_as result
        ≡ float_taken_from (view_by status map mem.now) place kind role (at (located_at location) regs.now) }
    ensures small { SmallTaken result }
{
    match location {
        Location::Immediate(z) => {
            if rules::writes(role) {
                return Err(forms::misplaced(place));
            }
            Ok(Taken {
                bits: bits_for(role, wide(z)),
                target: Target::Nowhere,
            })
        }
        Location::Register(x) => Ok(Taken {
            bits: bits_for(role, in_register(regs, kind, x)),
            target: target_for(role, Target::Register(x)),
        }),
        Location::Memory(a) => Ok(take_memory(mem, status, map, kind, role, a)?),
    }
}

// The new bits at their own place, else the old ones.
fn chosen(place: u32, own: u32, new: u64, old: u64) -> u64
    ensures { result ≡ pick (eqb place own) new old }
{
    if place == own { new } else { old }
}

// The operands that follow the command byte, from R15 on.
fn take_all(
    mem: &[u8],
    regs: &mut [u32; 16],
    status: u32,
    map: Map,
    start: Start,
    kind: Kind,
    rules: Rules,
) -> Result<Operands, Fault>
    requires { Fits map mem.now × FetchedFrom (view_by status map mem.now) mem.now start }
    ensures value { operands_as result regs.new
        ≡ float_operands_of (view_by status map mem.now) kind (roles_in rules.number) regs.old }
    ensures small { SmallOperands result }
{
    let mut taken = Operands {
        first: 0,
        second: 0,
        target: Target::Nowhere,
    };
    let mut rest = rules;
    for place in 1..rules::count_in(rules.number) + 1 {
        let role = rules::role_in(rest.number);
        let location = operand(mem, regs, status, map, start, kind, place)?;
        let t = take(mem, regs, status, map, kind, role, place, location)?;
        taken = Operands {
            first: chosen(place, 1, t.bits, taken.first),
            second: chosen(place, 2, t.bits, taken.second),
            target: t.target,
        };
        rest = rules::rest_of(rest);
    }
    Ok(taken)
}

// ---- The operation

// The operation of a floating command byte, from the first two operands' bits; 12 for an unknown
// byte.
fn action_of(b: u32, kind: Kind, x: u64, y: u64) -> Result<Action, Fault>
    requires { (0x80 ≤ b) × (b < 256) }
    ensures { result ≡ float_action b kind x y }
{
    let p = floats::value(kind, x);
    let q = floats::value(kind, y);
    let action = match b {
        0x80..=0x81 | 0x84..=0x85 => Action::Give(floats::arithmetic(Arithmetic::Add, p, q)),
        0x88..=0x89 | 0x8C..=0x8D => Action::Give(floats::arithmetic(Arithmetic::Sub, p, q)),
        0x90..=0x91 | 0x94..=0x95 => Action::Give(floats::arithmetic(Arithmetic::Mult, p, q)),
        0x98..=0x99 | 0x9C..=0x9D => Action::Give(floats::arithmetic(Arithmetic::Div, p, q)),
        0xA0..=0xA1 => Action::Give(floats::moved(x, p)),
        0xA4..=0xA5 => Action::Flags(floats::compare(p, q)),
        _ => {
            return Err(Fault {
                alarm: Alarm::Command,
                argument: b,
            });
        }
    };
    Ok(action)
}

// ---- The result

// The bits to register x, and of a D to the next one too.
fn to_register(regs: &mut [u32; 16], kind: Kind, x: u32, bits: u64)
    requires { x < 16 }
    ensures { regs.new ≡ bits_to_register kind regs.old x bits }
{
    let i = x as usize;
    match kind {
        Kind::F => {
            regs[i] = (bits % 4294967296) as u32;
        }
        Kind::D => {
            let j = next(x);
            regs[i] = (bits / 4294967296) as u32;
            regs[j] = (bits % 4294967296) as u32;
        }
    }
}

// The bits of a kind to an address.
fn store(
    mem: &mut [u8],
    status: u32,
    map: Map,
    kind: Kind,
    a: VirtualAddress,
    bits: u64,
) -> Result<(), Fault>
    requires { Fits map mem.old }
    ensures { stored_as result mem.new
        ≡ stored_in status map mem.old a (bytes_of (kind_length kind) bits) }
{
    match kind {
        Kind::F => stores::store(mem, status, map, a, Size::W, (bits % 4294967296) as u32),
        Kind::D => doubles::store(mem, status, map, a, bits),
    }
}

// A result to its target.
fn put(
    mem: &mut [u8],
    regs: &mut [u32; 16],
    status: u32,
    map: Map,
    kind: Kind,
    x: FloatResult,
    target: Target,
) -> Result<Out, Fault>
    requires { Fits map mem.old × SmallTarget target }
    ensures { out_as result regs.new mem.new
        ≡ end_in status map mem.old (λ v. got (float_stored kind x target regs.old)) }
{
    match target {
        Target::Nowhere => {}
        Target::Register(i) => to_register(regs, kind, i, x.bits),
        Target::Memory(a) => store(mem, status, map, kind, a, x.bits)?,
    }
    Ok(Out::Done(results::with_flags(status, x.flags)))
}

// ---- The command

// The floating command of byte b at `start`, by the lent table of rules; R15 is past the byte.
// Where it alarms the registers are of no account. Kept out of the loop over commands, which ran words
// a sixth slower with it inside.
#[inline(never)]
pub fn command(
    mem: &mut [u8],
    regs: &mut [u32; 16],
    status: u32,
    map: Map,
    table: &Table,
    start: Start,
    b: u32,
) -> Result<Out, Fault>
    requires { Fits map mem.old × FetchedFrom (view_by status map mem.old) mem.old start
        × (0x80 ≤ b) × (b < 256) }
    ensures { out_as result regs.new mem.new
        ≡ end_in status map mem.old (λ v. float_command b v regs.old) }
{
    let rules = rules::float_rules_of(table, b);
    let kind = rules::kind_in(rules.number);
    // A match, since `?` would take the operands through memory.
    let operands = match take_all(mem, regs, status, map, start, kind, rules) {
        Ok(operands) => operands,
        Err(fault) => return Err(fault),
    };
    match action_of(b, kind, operands.first, operands.second)? {
        Action::Give(x) => put(mem, regs, status, map, kind, x, operands.target),
        Action::Flags(f) => Ok(Out::Done(results::with_flags(status, f))),
    }
}
