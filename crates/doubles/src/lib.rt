// Values of eight bytes through the map: a D in memory. Where its bytes lie in one page, one lookup
// answers for all of them; else it is read word by word, and stored byte by byte.
#![tactic(auto)]

ghost use Rattle.std.specs.Prelude.{◌≡◌, ◌*◌, ◌+◌, ◌≤◌, length};
ghost use Rattle.std.proofs.lemmas.List.Edits.{sets};
ghost use Rattle.doubles.specs.Answers.{bits_as};
ghost use Rattle.lookup.specs.Answers.{Fits};
ghost use Rattle.machine.specs.Map.{read_bytes, view_by};
ghost use Rattle.machine.specs.Words.{bytes_of, value_at};
ghost use Rattle.stores.specs.Answers.{stored_as, stored_in};

use machine::{Access, Fault, Map, Size, VirtualAddress};

// Two words as one value, the high one first.
pub fn joined(high: u32, low: u32) -> u64
    ensures { result ≡ high * 4294967296 + low }
{
    (high as u64) * 4294967296 + low as u64
}

// The value at a place.
fn double_at(bytes: &[u8], a: usize) -> u64
    requires { a + 8 ≤ length bytes.now }
    ensures { result ≡ value_at bytes.now 8 a 0 }
{
    let high = words::word(bytes, a);
    let low = words::word(bytes, a + 4);
    joined(high, low)
}

// The value at an address, word by word: its bytes may lie in two pages.
fn read_words(mem: &[u8], status: u32, map: Map, x: VirtualAddress) -> Result<u64, Fault>
    requires { Fits map mem.now }
    ensures { bits_as result ≡ read_bytes (view_by status map mem.now) Access.Read 8 x }
{
    let next = VirtualAddress(words::plus(x.0, 4));
    let high = reads::read(mem, status, map, x, Size::W)?;
    let low = reads::read(mem, status, map, next, Size::W)?;
    Ok(joined(high, low))
}

// The value at an address. `Ok(..?)` makes the rare call's answer anew, so that the other one stays in
// registers.
pub fn read(mem: &[u8], status: u32, map: Map, x: VirtualAddress) -> Result<u64, Fault>
    requires { Fits map mem.now }
    ensures { bits_as result ≡ read_bytes (view_by status map mem.now) Access.Read 8 x }
{
    match lookup::look_whole(mem, status, map, x, 8, Access::Read)? {
        Some(r) => Ok(double_at(mem, r.0 as usize)),
        None => Ok(read_words(mem, status, map, x)?),
    }
}

// The bytes of a value to a place, highest first.
fn lay(bytes: &mut [u8], a: usize, bits: u64)
    requires { a + 8 ≤ length bytes.old }
    ensures { bytes.new ≡ sets bytes.old a (bytes_of 8 bits) }
{
    words::value_to(bytes, a, Size::W, (bits / 4294967296) as u32);
    words::value_to(bytes, a + 4, Size::W, (bits % 4294967296) as u32);
}

// A value to an address.
pub fn store(
    mem: &mut [u8],
    status: u32,
    map: Map,
    x: VirtualAddress,
    bits: u64,
) -> Result<(), Fault>
    requires { Fits map mem.old }
    ensures { stored_as result mem.new ≡ stored_in status map mem.old x (bytes_of 8 bits) }
{
    match lookup::look_whole(mem, status, map, x, 8, Access::Write)? {
        Some(r) => {
            lay(mem, r.0 as usize, bits);
            Ok(())
        }
        None => {
            let mut bytes = [0u8; 8];
            lay(&mut bytes, 0, bits);
            stores::store_each(mem, status, map, x, &bytes)
        }
    }
}
