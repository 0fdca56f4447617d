// A state as 32 words, as many as a mask of changed words has bits:
//
//     0 to 15   the registers
//     16        status
//     17        pending set
//     18, 19    map base, map length
//     20, 21    system block, control block
//     22, 23    0 and 0 for running; 1 and the number for stopped
//     24 to 31  not used: 0
use crate::fields::Fields;
use machine::{Desk, Map, Mark, RealAddress};

pub const WORDS: usize = 32;

// The words that a kernel entry saves: the registers, the status and the argument.
pub const SAVED: usize = 18;

pub type Words = [u32; WORDS];

// Changes of words: a mask, then the new value of each word whose bit is set, from bit 0 upward.
pub fn changed(fields: &mut Fields, old: Words) -> Words {
    let mut words = old;
    let mut mask = fields.word();
    for word in words.iter_mut() {
        if mask % 2 == 1 {
            *word = fields.word();
        }
        mask /= 2;
    }
    words
}

pub fn desk_of(w: Words) -> Desk {
    let mut registers = [0u32; 16];
    registers.copy_from_slice(&w[..16]);
    let pending = (w[17] % 65536) as u16;
    let map = Map {
        base: RealAddress(w[18]),
        length: w[19],
    };
    let mark = if w[22] == 0 {
        Mark::Running
    } else {
        Mark::Stopped(w[23])
    };
    state::new(
        registers,
        w[16],
        pending,
        map,
        RealAddress(w[20]),
        RealAddress(w[21]),
        mark,
    )
}

pub fn words_of(d: Desk) -> Words {
    let mut w = [0u32; WORDS];
    w[..16].copy_from_slice(&d.registers);
    w[16] = d.status;
    w[17] = u32::from(d.pending);
    w[18] = d.map.base.0;
    w[19] = d.map.length;
    w[20] = d.system.0;
    w[21] = d.control.0;
    (w[22], w[23]) = match d.mark {
        Mark::Running => (0, 0),
        Mark::Stopped(n) => (1, n),
    };
    w
}

// What the words that an entry saves are stored as changes of: registers and status before the
// call, and argument 0.
pub fn unsaved(w: Words) -> Words {
    let mut words = w;
    words[17] = 0;
    words
}

// The words that an entry saved at the start of the control block.
pub fn saved_in(mem: &[u8], w: Words) -> Words {
    let block = mem.get(w[21] as usize..).unwrap_or(&[]);
    let mut fields = Fields::new(block);
    let mut words = [0u32; WORDS];
    for word in words.iter_mut().take(SAVED) {
        *word = fields.word();
    }
    words
}
