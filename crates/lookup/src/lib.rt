// The map: every step from a virtual address to a frame number and a real address. One byte is
// looked up in the mode that the status tells; bytes in one page by the first of them; a byte
// beside one that was looked up is found from it; in kernel mode an address is real.
#![tactic(auto)]

ghost use Rattle.std.specs.Prelude.{◌≡◌, false, ◌<◌, ◌≤◌, ltb};
ghost use Rattle.lookup.specs.Answers.{Fits, FoundBeside, WholeOf, frame_for, lookup_as, refused_for};
ghost use Rattle.machine.specs.Map.{in_frame, mapped, real_of, view_by};
ghost use Rattle.machine.specs.State.{user_mode};
ghost use Rattle.machine.specs.Words.{pick};

use machine::{Access, Alarm, Fault, FrameNumber, Map, RealAddress, VirtualAddress};

fn in_frame(f: FrameNumber, x: VirtualAddress) -> RealAddress
    requires { f.0 < 32768 }
    ensures { result ≡ in_frame f x }
{
    RealAddress(512 * f.0 + x.0 % 512)
}

fn lesser(a: u32, b: u32) -> u32
    ensures { result ≡ pick (ltb a b) a b }
{
    if a < b { a } else { b }
}

// The frame of an entry that allows this access; else a number past every frame. Taken off are the
// bits that must be set, and those that do not matter: the bit for writing to a fetch, that against
// fetching to a write, both to a read.
fn frame_for(why: Access, e: u32) -> u32
    ensures { result ≡ frame_for why e }
{
    match why {
        Access::Fetch => lesser(words::minus(e, 0x8000_0000), words::minus(e, 0xC000_0000)),
        Access::Read => {
            let low = words::minus(e, 0x8000_0000);
            low % 0x2000_0000 + low / 0x8000_0000 * 0x8000_0000
        }
        Access::Write => lesser(words::minus(e, 0xC000_0000), words::minus(e, 0xE000_0000)),
    }
}

// The alarm of an entry that does not allow this access, of a memory with so many frames. A sound
// entry always allows reading.
fn refused(why: Access, e: u32, frames: usize) -> Alarm
    ensures { result ≡ refused_for why e frames }
{
    if e < 0x8000_0000 {
        return Alarm::Absent;
    }
    let f = (e % 0x100_0000) as usize;
    if (e / 0x100_0000 % 0x20 != 0) | (frames <= f) {
        return Alarm::MapEntry;
    }
    match why {
        Access::Fetch => Alarm::NoFetch,
        Access::Read => Alarm::MapEntry,
        Access::Write => Alarm::ReadOnly,
    }
}

// An alarm whose argument is the byte's address.
fn at_byte(x: VirtualAddress, alarm: Alarm) -> Fault
    ensures { result ≡ record { alarm = alarm; argument = x.0 } }
{
    Fault {
        alarm,
        argument: x.0,
    }
}

// In user mode.
fn look_mapped(mem: &[u8], map: Map, x: VirtualAddress, why: Access) -> Result<RealAddress, Fault>
    requires { Fits map mem.now }
    ensures { lookup_as mem.now result ≡ mapped map mem.now x why }
{
    let p = x.0 / 512;
    if map.length <= p {
        return Err(at_byte(x, Alarm::Address));
    }
    let base = map.base;
    let e = words::word(mem, (base.0 + 4 * p) as usize);
    let f = frame_for(why, e);
    let frames = mem.len() / 512;
    if frames <= f as usize {
        return Err(at_byte(x, refused(why, e, frames)));
    }
    Ok(in_frame(FrameNumber(f), x))
}

// In kernel mode alone.
pub fn real(status: u32, x: VirtualAddress) -> RealAddress
    requires { user_mode status ≡ false }
    ensures { result ≡ real_of x }
{
    RealAddress(x.0)
}

// Where a byte lies, in the mode that the status tells.
pub fn look(
    mem: &[u8],
    status: u32,
    map: Map,
    x: VirtualAddress,
    why: Access,
) -> Result<RealAddress, Fault>
    requires { Fits map mem.now }
    ensures { lookup_as mem.now result ≡ view_by status map mem.now x why }
{
    if status < 0x8000_0000 {
        return look_mapped(mem, map, x, why);
    }
    if (x.0 as usize) < mem.len() {
        return Ok(real(status, x));
    }
    Err(at_byte(x, Alarm::Address))
}

// Where the n bytes from x on lie, if they lie in one page: it is looked up once, and the first
// byte's answer is that of all (`OnePage`). None where they do not.
pub fn look_whole(
    mem: &[u8],
    status: u32,
    map: Map,
    x: VirtualAddress,
    n: u32,
    why: Access,
) -> Result<Option<RealAddress>, Fault>
    requires { Fits map mem.now × (1 ≤ n) × (n ≤ 512) }
    ensures { WholeOf (view_by status map mem.now) mem.now x n why result }
{
    if 512 < x.0 % 512 + n {
        return Ok(None);
    }
    let r = look(mem, status, map, x, why)?;
    Ok(Some(r))
}

// Where the byte at x lies, if x is not before start and the n bytes from x on lie in the page of
// start, whose byte lies at found. None promises nothing: the caller looks the byte up.
pub fn beside(
    start: VirtualAddress,
    found: RealAddress,
    x: VirtualAddress,
    n: u32,
) -> Option<RealAddress>
    requires { (found.0 ≤ 16777216) × (1 ≤ n) × (n ≤ 512) }
    ensures { FoundBeside start found x n result }
{
    if start.0 <= x.0 {
        let k = x.0 - start.0;
        if start.0 % 512 + k <= 512 - n {
            return Some(RealAddress(found.0 + k));
        }
    }
    None
}
