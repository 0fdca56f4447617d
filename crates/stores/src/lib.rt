// Values and rows of bytes to memory through the map: every byte is looked up, in the memory from
// the start, before any is written. Where the bytes of a value lie in one page, one lookup answers
// for all of them; the bytewise way stands beside it.
#![tactic(auto)]

ghost use Rattle.std.specs.Prelude.{◌≡◌, ◌≤◌, length, take};
ghost use Rattle.lookup.specs.Answers.{Fits};
ghost use Rattle.machine.specs.Words.{bytes_of, length_of};
ghost use Rattle.stores.specs.Answers.{stored_as, stored_in};

use machine::{Access, Fault, Map, RealAddress, Size, VirtualAddress};

// Some bytes, at most sixty, to the addresses from x on, each looked up by itself: they may lie in two
// pages.
pub fn store_each(
    mem: &mut [u8],
    status: u32,
    map: Map,
    x: VirtualAddress,
    bytes: &[u8],
) -> Result<(), Fault>
    requires { Fits map mem.old × (length bytes.now ≤ 60) }
    ensures { stored_as result mem.new ≡ stored_in status map mem.old x bytes.now }
{
    let mut places = [RealAddress(0); 60];
    for i in 0..bytes.len() {
        let a = VirtualAddress(words::plus(x.0, i as u32));
        places[i] = lookup::look(mem, status, map, a, Access::Write)?;
    }
    for j in 0..bytes.len() {
        let place = places[j];
        mem[place.0 as usize] = bytes[j];
    }
    Ok(())
}

// The first bytes of the array are the value's, highest first.
fn bytes_of(size: Size, value: u32) -> [u8; 4]
    ensures { take (length_of size) result ≡ bytes_of (length_of size) value }
{
    let mut bytes = [0u8; 4];
    words::value_to(&mut bytes, 0, size, value);
    bytes
}

// A value of a size to an address.
#[inline(always)]
pub fn store(
    mem: &mut [u8],
    status: u32,
    map: Map,
    x: VirtualAddress,
    size: Size,
    value: u32,
) -> Result<(), Fault>
    requires { Fits map mem.old }
    ensures { stored_as result mem.new
        ≡ stored_in status map mem.old x (bytes_of (length_of size) value) }
{
    let n = size.length();
    match lookup::look_whole(mem, status, map, x, n, Access::Write)? {
        Some(r) => {
            words::value_to(mem, r.0 as usize, size, value);
            Ok(())
        }
        None => store_each(mem, status, map, x, &bytes_of(size, value)[..n as usize]),
    }
}
