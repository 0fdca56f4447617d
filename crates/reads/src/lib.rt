// Values of B, H and W through the map. Where the bytes of a value lie in one page, one lookup
// answers for all of them; the bytewise way stands beside it.
#![tactic(auto)]

ghost use Rattle.std.specs.Prelude.{◌≡◌, ◌≤◌};
ghost use Rattle.lookup.specs.Answers.{Fits};
ghost use Rattle.machine.specs.Map.{read_bytes, view_by};
ghost use Rattle.machine.specs.Words.{length_of};
ghost use Rattle.reads.specs.Answers.{SpanOrAlarm, got_as};

use machine::{Access, Fault, Map, Size, VirtualAddress};

// Byte by byte, n bytes from x.
pub fn read_bytewise(
    mem: &[u8],
    status: u32,
    map: Map,
    x: VirtualAddress,
    n: u32,
    why: Access,
) -> Result<u32, Fault>
    requires { Fits map mem.now × (n ≤ 4) }
    ensures value { got_as result ≡ read_bytes (view_by status map mem.now) why n x }
    ensures small { SpanOrAlarm n result }
{
    let mut acc: u32 = 0;
    for i in 0..n {
        let r = lookup::look(mem, status, map, VirtualAddress(words::plus(x.0, i)), why)?;
        acc = acc * 256 + words::wide(mem[r.0 as usize]);
    }
    Ok(acc)
}

// The value of a size at an address. `Ok(..?)` makes the rare call's answer anew, so that the other one
// stays in registers.
#[inline(always)]
pub fn read(mem: &[u8], status: u32, map: Map, x: VirtualAddress, size: Size) -> Result<u32, Fault>
    requires { Fits map mem.now }
    ensures { got_as result ≡ read_bytes (view_by status map mem.now) Access.Read (length_of size) x }
{
    let n = size.length();
    match lookup::look_whole(mem, status, map, x, n, Access::Read)? {
        Some(r) => Ok(words::value_at(mem, r.0 as usize, size)),
        None => Ok(read_bytewise(mem, status, map, x, n, Access::Read)?),
    }
}
