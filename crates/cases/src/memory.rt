// The memory of a case: its image before the first call, and what the calls changed. Bytes stored
// outside the memory are dropped.
use crate::fields::Fields;

fn put(mem: &mut [u8], address: usize, bytes: &[u8]) {
    if let Some(rest) = mem.get_mut(address..) {
        for (to, from) in rest.iter_mut().zip(bytes) {
            *to = *from;
        }
    }
}

// Byte i is first + i * add, modulo 256.
fn put_ramp(mem: &mut [u8], address: usize, n: usize, first: u8, add: u8) {
    if let Some(rest) = mem.get_mut(address..) {
        let mut byte = first;
        for to in rest.iter_mut().take(n) {
            *to = byte;
            byte = byte.wrapping_add(add);
        }
    }
}

// A run: u32 address, u16 length n, n bytes.
fn store_run(mem: &mut [u8], fields: &mut Fields) {
    let address = fields.word() as usize;
    let n = fields.half() as usize;
    put(mem, address, fields.part(n));
}

// A ramp: u32 address, u16 length, u8 first, u8 add.
fn store_ramp(mem: &mut [u8], fields: &mut Fields) {
    let address = fields.word() as usize;
    let n = fields.half() as usize;
    let first = fields.byte();
    let add = fields.byte();
    put_ramp(mem, address, n, first, add);
}

// u8 kind: 1 for a ramp, else a run.
fn store_fill(mem: &mut [u8], fields: &mut Fields) {
    if fields.byte() == 1 {
        store_ramp(mem, fields);
    } else {
        store_run(mem, fields);
    }
}

// The whole of a lent buffer: u8 first, u8 add.
pub fn fill_scratch(scratch: &mut [u8], fields: &mut Fields) {
    let n = scratch.len();
    let first = fields.byte();
    let add = fields.byte();
    put_ramp(scratch, 0, n, first, add);
}

// The image: u16 number of fills, and the fills in order.
pub fn fill(mem: &mut [u8], fields: &mut Fields) {
    for _ in 0..fields.half() {
        if fields.is_empty() {
            break;
        }
        store_fill(mem, fields);
    }
}

// What changed: u16 number of runs, and the runs.
pub fn patch(mem: &mut [u8], fields: &mut Fields) {
    for _ in 0..fields.half() {
        if fields.is_empty() {
            break;
        }
        store_run(mem, fields);
    }
}
