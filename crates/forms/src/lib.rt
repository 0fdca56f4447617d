// The nine forms of an operand and their rules: where an operand is.
#![tactic(auto)]

ghost use Rattle.std.specs.Prelude.{◌≡◌, ◌&&◌, not, ◌*◌, ◌<◌, ◌≤◌, eqb, ltb};
ghost use Rattle.fetches.specs.Answers.{named};
ghost use Rattle.forms.specs.Answers.{Behind, SmallLocation, location_as};
ghost use Rattle.lookup.specs.Answers.{Fits};
ghost use Rattle.machine.specs.Map.{read_bytes, view_by};
ghost use Rattle.machine.specs.Operands.{formed, virtual};
ghost use Rattle.machine.specs.Words.{span, wrap};

use fetches::Fields;
use machine::{Access, Alarm, Fault, Map, Size, VirtualAddress};

// Where an operand is.
#[derive(Clone, Copy)]
pub enum Location {
    Immediate(u32),
    Register(u32),
    Memory(VirtualAddress),
}

// A word as an address.
pub fn address(a: u32) -> VirtualAddress
    ensures { result ≡ virtual a }
{
    VirtualAddress(a)
}

// A register times L.
#[inline(always)]
pub fn scaled(a: u32, length: u32) -> u32
    ensures { result ≡ wrap (a * length) }
{
    ((a as u64) * (length as u64) % 0x1_0000_0000) as u32
}

// Whether a word fits in L bytes.
#[inline(always)]
pub fn fits(length: u32, z: u32) -> bool
    ensures { result ≡ ltb z (span length) }
{
    match length {
        0 => z < 1,
        1 => z < 0x100,
        2 => z < 0x1_0000,
        3 => z < 0x100_0000,
        _ => true,
    }
}

// A place behind the word at an address: the address that it holds, `more` bytes further on.
fn behind(
    mem: &[u8],
    status: u32,
    map: Map,
    a: VirtualAddress,
    more: u32,
) -> Result<Location, Fault>
    requires { Fits map mem.now }
    ensures { Behind result (read_bytes (view_by status map mem.now) Access.Read 4 a) more }
{
    let n = reads::read(mem, status, map, a, Size::W)?;
    Ok(Location::Memory(VirtualAddress(words::plus(n, more))))
}

// Alarm 14, of the operand at a place.
pub fn misplaced(place: u32) -> Fault
    ensures { result ≡ record { alarm = Alarm.Operand; argument = place } }
{
    Fault {
        alarm: Alarm::Operand,
        argument: place,
    }
}

// Forms 7 and 8 exclude x = 15 and use neither y nor z.
pub fn can_step(x: u32, y: u32, z: u32) -> bool
    ensures { result ≡ (not (eqb x 15) && eqb y 0 && eqb z 0) }
{
    (x != 15) & (y == 0) & (z == 0)
}

// The operand of L bytes that the fields name, over registers with R15 past them; form rules are
// tried first. `Ok(..?)` makes the answer of `behind` anew, so that the others stay in registers.
#[inline(always)]
pub fn by_form(
    mem: &[u8],
    regs: &mut [u32; 16],
    status: u32,
    map: Map,
    length: u32,
    place: u32,
    fields: Fields,
) -> Result<Location, Fault>
    requires { Fits map mem.now }
    ensures location { location_as result regs.new
        ≡ formed (view_by status map mem.now) place length regs.old (named fields) }
    ensures small { SmallLocation result }
{
    let Fields { form, x, y, z } = fields;
    let i = x as usize;
    let rx = regs[i];
    let ry = regs[y as usize];
    match form {
        0 if x == 0 && y == 0 => Ok(Location::Memory(address(z))),
        1 if x == 0 && y == 0 && fits(length, z) => Ok(Location::Immediate(z)),
        2 if y == 0 && z == 0 => Ok(Location::Register(x)),
        3 if y == 0 => Ok(Location::Memory(VirtualAddress(words::plus(z, rx)))),
        4 => {
            let a = words::plus(words::plus(z, rx), scaled(ry, length));
            Ok(Location::Memory(VirtualAddress(a)))
        }
        5 if y == 0 => {
            let a = VirtualAddress(words::plus(z, rx));
            Ok(behind(mem, status, map, a, 0)?)
        }
        6 => {
            let a = VirtualAddress(words::plus(z, rx));
            Ok(behind(mem, status, map, a, scaled(ry, length))?)
        }
        7 if can_step(x, y, z) => {
            let a = words::minus(rx, length);
            regs[i] = a;
            Ok(Location::Memory(VirtualAddress(a)))
        }
        8 if can_step(x, y, z) => {
            regs[i] = words::plus(rx, length);
            Ok(Location::Memory(address(rx)))
        }
        _ => Err(Fault {
            alarm: Alarm::Operand,
            argument: place,
        }),
    }
}
