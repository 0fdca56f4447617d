// Whether two lists clash: whether there is an address at which both put and their last bytes differ. It
// is found out in a scratch, of which a byte cannot hold "no byte yet, or one of 256": the bytes are
// compared in two rounds, by their high halves and by their low halves.
#![tactic(auto)]

ghost use Rattle.std.specs.Prelude.{◌≡◌, not, ◌+◌, ◌≤◌, ◌<◌, length, replicate, take};
ghost use Rattle.lists.specs.Lists.{put_bytes, puts_of};
ghost use Rattle.load.specs.Judged.{Puttable, Sound};
ghost use Rattle.machine.specs.Map.{real_writes_from};
ghost use Rattle.clash.specs.Clashes.{agree, cleared};
ghost use Rattle.clash.specs.Notes.{agree_by, found_below, half_of, note_of, noted};

use lists::Command;
use machine::RealAddress;

// ---- Notes

// The half of every byte that a round compares.
#[derive(Clone, Copy)]
pub enum Half {
    High,
    Low,
}

// The list whose puts are noted.
#[derive(Clone, Copy)]
pub enum Turn {
    First,
    Second,
}

impl Half {
    // The half of a byte.
    fn of(self, byte: u8) -> u8
        ensures value { result ≡ half_of self byte }
        ensures small { result < 16 }
    {
        match self {
            Half::High => byte / 16,
            Half::Low => byte % 16,
        }
    }
}

impl Turn {
    // The note after a put, by the note before it and the half that is put.
    fn note(self, old: u8, half: u8) -> u8
        requires { half < 16 }
        ensures { result ≡ note_of self old half }
    {
        match self {
            Turn::First => half + 1,
            Turn::Second => {
                let first = old % 32;
                if (first == 0) | (first == half + 1) {
                    return first;
                }
                first + 32
            }
        }
    }
}

// A byte that is put.
fn note_byte(scratch: &mut [u8], at: usize, byte: u8, half: Half, turn: Turn)
    requires { at < length scratch.old }
    ensures { scratch.new
        ≡ noted half turn (real_writes_from at (replicate 1 byte)) scratch.old }
{
    scratch[at] = turn.note(scratch[at], half.of(byte));
}

// Bytes in a row.
fn note_bytes(scratch: &mut [u8], at: usize, bytes: &[u8], half: Half, turn: Turn)
    requires { at + length bytes.now ≤ length scratch.old }
    ensures { scratch.new
        ≡ noted half turn (real_writes_from at bytes.now) scratch.old }
{
    for (i, byte) in bytes.iter().enumerate() {
        note_byte(scratch, at + i, *byte, half, turn);
    }
}

// So many copies of a byte in a row; of none the index does not matter.
fn note_copies(scratch: &mut [u8], at: usize, count: usize, byte: u8, half: Half, turn: Turn)
    requires { 0 < count → at + count ≤ length scratch.old }
    ensures { scratch.new
        ≡ noted half turn (real_writes_from at (replicate count byte)) scratch.old }
{
    for i in 0..count {
        note_byte(scratch, at + i, byte, half, turn);
    }
}

// What a command puts, from a place on.
fn note(scratch: &mut [u8], place: RealAddress, c: Command, half: Half, turn: Turn)
    requires { Puttable scratch.old place.0 c }
    ensures { scratch.new
        ≡ noted half turn (real_writes_from place.0 (put_bytes c)) scratch.old }
{
    let at = place.0 as usize;
    match c {
        Command::Move(_) => {}
        Command::Byte(b) => {
            note_byte(scratch, at, b, half, turn);
        }
        Command::Four(a, b, c, d) => {
            note_bytes(scratch, at, &[a, b, c, d], half, turn);
        }
        Command::Copies(count, b) => {
            note_copies(scratch, at, count as usize, b, half, turn);
        }
    }
}

// What a list puts, one command after another.
fn note_all(scratch: &mut [u8], list: &[u8], half: Half, turn: Turn)
    requires { Sound scratch.old list.now }
    ensures { scratch.new ≡ noted half turn (puts_of list.now) scratch.old }
{
    let mut at: usize = 0;
    let mut place = RealAddress(0);
    while let Ok(Some(c)) = lists::next_at(list, at) {
        note(scratch, place, c, half, turn);
        place = c.place_after(place);
        at += c.width();
    }
}

// Whether a note says that the lists differ; it clears them all.
fn take_notes(scratch: &mut [u8]) -> bool
    ensures answer { result ≡ found_below (length scratch.old) scratch.old }
    ensures zeros { scratch.new ≡ cleared scratch.old }
{
    let mut found = false;
    for note in scratch.iter_mut() {
        found |= 32 <= *note;
        *note = 0;
    }
    found
}

// ---- Two lists

// A round, on a scratch of zeros, which it leaves: whether the lists differ in this half of the last
// bytes that they put at some address.
fn halves_differ(scratch: &mut [u8], first: &[u8], second: &[u8], half: Half) -> bool
    requires sound { Sound scratch.old first.now }
    requires sound_2 { Sound scratch.old second.now }
    requires scratch_value { scratch.old ≡ cleared scratch.old }
    ensures answer { result ≡ not (agree_by half (length scratch.old)
        (puts_of first.now) (puts_of second.now)) }
    ensures zeros { scratch.new ≡ scratch.old }
{
    note_all(scratch, first, half, Turn::First);
    note_all(scratch, second, half, Turn::Second);
    take_notes(scratch)
}

// Both rounds, on a scratch of zeros, which they leave: whether the lists differ in these bytes.
fn bytes_differ(scratch: &mut [u8], first: &[u8], second: &[u8]) -> bool
    requires sound { Sound scratch.old first.now }
    requires sound_2 { Sound scratch.old second.now }
    requires scratch_value { scratch.old ≡ cleared scratch.old }
    ensures answer { result ≡ not (agree (length scratch.old)
        (puts_of first.now) (puts_of second.now)) }
    ensures zeros { scratch.new ≡ scratch.old }
{
    halves_differ(scratch, first, second, Half::High)
        || halves_differ(scratch, first, second, Half::Low)
}

// Whether the lists clash in a memory of n bytes. Clears the scratch, and works on as much of it as the
// memory has.
pub fn found(scratch: &mut [u8], n: usize, first: &[u8], second: &[u8]) -> bool
    requires n_in_bounds { n ≤ length scratch.old }
    requires sound { Sound (take n scratch.old) first.now }
    requires sound_2 { Sound (take n scratch.old) second.now }
    ensures answer { result ≡ not (agree n (puts_of first.now) (puts_of second.now)) }
    ensures zeros { scratch.new ≡ cleared scratch.old }
{
    let all = scratch.len();
    load::fill(scratch, 0, all, 0);
    bytes_differ(&mut scratch[..n], first, second)
}
