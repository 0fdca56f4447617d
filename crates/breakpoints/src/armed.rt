// The addresses of the armed breakpoints of a list, as plain data.
ghost use Rattle.std.specs.Prelude.{◌≤◌};

use crate::MOST;

// Addresses: the first `count` of the array, where it has so many.
#[derive(Clone, Copy)]
pub struct Addresses {
    pub addresses: [u32; MOST],
    pub count: usize,
}

// They stand in the list's order, the first `count` of the array; beside them the length of the list.
#[derive(Clone, Copy)]
pub struct Armed {
    pub addresses: [u32; MOST],
    pub count: usize,
    pub length: usize,
    pub ghost room: { length ≤ 64 → count ≤ 64 },
}
