// The state of a desk as 90 bytes (specs/Layout.antt). Any bytes are a state.
#![tactic(auto)]

ghost use Rattle.std.specs.Prelude.{◌≡◌};
ghost use Rattle.layout.specs.Layout.{mark_number, mark_of, packed, unpacked};

use machine::{Desk, Map, Mark, RealAddress};

pub const STATE_BYTES: usize = 90;

// The number that says that a desk runs: none stops with it.
const RUNS: u32 = 0xFFFF_FFFF;

// The word of a mark.
fn mark_word(mark: Mark) -> u32
    ensures { result ≡ mark_number mark }
{
    match mark {
        Mark::Running => RUNS,
        Mark::Stopped(n) => n,
    }
}

fn word_mark(w: u32) -> Mark
    ensures { result ≡ mark_of w }
{
    if w == RUNS {
        Mark::Running
    } else {
        Mark::Stopped(w)
    }
}

// The desk of 90 bytes.
pub fn unpack(b: [u8; STATE_BYTES]) -> Desk
    ensures { result ≡ unpacked b }
{
    let registers = words::sixteen(&b, 0);
    let status = words::word(&b, 64);
    let map = Map {
        base: RealAddress(words::word(&b, 68)),
        length: words::word(&b, 72),
    };
    let system = RealAddress(words::word(&b, 76));
    let control = RealAddress(words::word(&b, 80));
    let mark = word_mark(words::word(&b, 84));
    let pending = u16::from_be_bytes([b[88], b[89]]);
    state::new(registers, status, pending, map, system, control, mark)
}

// The 90 bytes of a desk.
#[inline(always)]
pub fn pack(d: Desk) -> [u8; STATE_BYTES]
    ensures { result ≡ packed d }
{
    let rest = [
        d.status,
        d.map.base.0,
        d.map.length,
        d.system.0,
        d.control.0,
        mark_word(d.mark),
    ];
    let mut b = [0; STATE_BYTES];
    let registers = d.registers;
    words::put_words(&mut b, 0, &registers);
    words::put_words(&mut b, 64, &rest);
    b[88..].copy_from_slice(&d.pending.to_be_bytes());
    b
}
