// Loads a list into a memory: first the whole list is judged, then its pieces are put.
#![tactic(auto)]

ghost use Rattle.std.specs.Prelude.{◌≡◌, ◌+◌, ◌≤◌, ◌<◌, length, replicate};
ghost use Rattle.std.proofs.lemmas.List.Edits.{sets};
ghost use Rattle.lists.specs.Lists.{put_bytes, puts_of};
ghost use Rattle.lists.specs.Refusals.{desk_pieces};
ghost use Rattle.load.specs.Judged.{Puttable, Sound};
ghost use Rattle.load.specs.Loading.{load_of, loaded};
ghost use Rattle.machine.specs.Map.{commit};

use lists::{Command, DESK_PIECES, LoadRefusal};
use machine::RealAddress;

// So many copies of a byte from an index on; of none the index does not matter.
pub fn fill(mem: &mut [u8], at: usize, count: usize, byte: u8)
    requires { 0 < count → at + count ≤ length mem.old }
    ensures { mem.new ≡ sets mem.old at (replicate count byte) }
{
    if 0 < count {
        mem[at..at + count].fill(byte);
    }
}

// What a command puts, from a place on.
fn put(mem: &mut [u8], place: RealAddress, c: Command)
    requires { Puttable mem.old place.0 c }
    ensures { mem.new ≡ sets mem.old place.0 (put_bytes c) }
{
    let at = place.0 as usize;
    match c {
        Command::Move(_) => {}
        Command::Byte(b) => {
            mem[at] = b;
        }
        Command::Four(a, b, c, d) => {
            mem[at..at + 4].copy_from_slice(&[a, b, c, d]);
        }
        Command::Copies(count, b) => {
            fill(mem, at, count as usize, b);
        }
    }
}

// What a list puts, one command after another.
pub fn put_all(mem: &mut [u8], list: &[u8])
    requires { Sound mem.old list.now }
    ensures { mem.new ≡ commit (puts_of list.now) mem.old }
{
    let mut at: usize = 0;
    let mut place = RealAddress(0);
    while let Ok(Some(c)) = lists::next_at(list, at) {
        put(mem, place, c);
        place = c.place_after(place);
        at += c.width();
    }
}

// Loads a list into a memory, or refuses it and changes nothing.
pub fn load(mem: &mut [u8], list: &[u8]) -> Result<(), LoadRefusal>
    ensures { loaded result mem.new ≡ load_of desk_pieces mem.old list.now }
{
    let n = mem.len();
    if !checks::length_allowed(n) {
        return Err(LoadRefusal::Length);
    }
    lists::judge(list, n, DESK_PIECES)?;
    put_all(mem, list);
    Ok(())
}
