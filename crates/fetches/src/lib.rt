// The bytes of a command: its command byte, and the six bytes of each operand. The lookup of the
// command byte answers for the operands in its page.
#![tactic(auto)]

ghost use Rattle.std.specs.Prelude.{◌≡◌, ◌+◌, ◌/◌, ◌%◌, ◌<◌, ◌≤◌, length};
ghost use Rattle.fetches.specs.Answers.{FetchedFrom, NearOf, SmallByte, StartOf};
ghost use Rattle.fetches.specs.Answers.{command_byte_as, named, operand_bytes_as, operand_bytes_at};
ghost use Rattle.lookup.specs.Answers.{Fits};
ghost use Rattle.machine.specs.Map.{read_bytes, view_by};
ghost use Rattle.machine.specs.Operands.{fields_at};

pub use fields::Fields;
use machine::{Access, Fault, Map, RealAddress, VirtualAddress};

mod fields;

// Where a command starts: the address of its first byte, and the place at which that was fetched.
#[derive(Clone, Copy)]
pub struct Start {
    pub address: VirtualAddress,
    pub place: RealAddress,
}

// A command byte, and where it lies.
pub fn fetch(
    mem: &[u8],
    status: u32,
    map: Map,
    x: VirtualAddress,
) -> Result<(u32, RealAddress), Fault>
    requires { Fits map mem.now }
    ensures value { command_byte_as result ≡ read_bytes (view_by status map mem.now) Access.Fetch 1 x }
    ensures small { SmallByte result }
    ensures found { StartOf (view_by status map mem.now) mem.now x result }
{
    let r = lookup::look(mem, status, map, x, Access::Fetch)?;
    Ok((words::wide(mem[r.0 as usize]), r))
}

// The fields of a form byte, a register pair and a word.
fn fields_of(form: u32, pair: u32, z: u32) -> Fields
    requires { pair < 256 }
    ensures { named result ≡ record { form = form; x = pair / 16; y = pair % 16; z = z } }
{
    Fields {
        form,
        x: pair / 16,
        y: pair % 16,
        z,
    }
}

// The fields in the six bytes from a place of memory on.
fn fields_in(mem: &[u8], place: RealAddress) -> Fields
    requires { place.0 + 6 ≤ length mem.now }
    ensures { named result ≡ operand_bytes_at mem.now place.0 }
{
    let at = place.0 as usize;
    let z = words::word(mem, at + 2);
    fields_of(words::wide(mem[at]), words::wide(mem[at + 1]), z)
}

// The six bytes of an operand, byte by byte.
fn fields_bytewise(mem: &[u8], status: u32, map: Map, x: VirtualAddress) -> Result<Fields, Fault>
    requires { Fits map mem.now }
    ensures { operand_bytes_as result ≡ fields_at (view_by status map mem.now) x.0 }
{
    let second = VirtualAddress(words::plus(x.0, 1));
    let third = VirtualAddress(words::plus(x.0, 2));
    let form = reads::read_bytewise(mem, status, map, x, 1, Access::Fetch)?;
    let pair = reads::read_bytewise(mem, status, map, second, 1, Access::Fetch)?;
    let z = reads::read_bytewise(mem, status, map, third, 4, Access::Fetch)?;
    Ok(fields_of(form, pair, z))
}

// The six bytes of an operand, looked up.
#[inline(never)]
pub fn fields_anew(mem: &[u8], status: u32, map: Map, x: VirtualAddress) -> Result<Fields, Fault>
    requires { Fits map mem.now }
    ensures { operand_bytes_as result ≡ fields_at (view_by status map mem.now) x.0 }
{
    match lookup::look_whole(mem, status, map, x, 6, Access::Fetch)? {
        Some(r) => Ok(fields_in(mem, r)),
        None => fields_bytewise(mem, status, map, x),
    }
}

// The six bytes of an operand, where they lie in the page of the command's first byte: the lookup of
// that one answers for them too. None promises nothing.
pub fn near(mem: &[u8], status: u32, map: Map, x: VirtualAddress, start: Start) -> Option<Fields>
    requires { Fits map mem.now × FetchedFrom (view_by status map mem.now) mem.now start }
    ensures { NearOf (view_by status map mem.now) x result }
{
    let r = lookup::beside(start.address, start.place, x, 6)?;
    Some(fields_in(mem, r))
}

// The six bytes of an operand of the command. `Ok(..?)` makes the rare call's answer anew, so that the
// other one stays in registers.
pub fn operand_fields(
    mem: &[u8],
    status: u32,
    map: Map,
    x: VirtualAddress,
    start: Start,
) -> Result<Fields, Fault>
    requires { Fits map mem.now × FetchedFrom (view_by status map mem.now) mem.now start }
    ensures { operand_bytes_as result ≡ fields_at (view_by status map mem.now) x.0 }
{
    match near(mem, status, map, x, start) {
        Some(k) => Ok(k),
        None => Ok(fields_anew(mem, status, map, x)?),
    }
}
