// What numbers 1 to 5 ask of a memory, a block, the map, a status and a pending set.
#![tactic(auto)]

ghost use Rattle.std.specs.Prelude.{◌≡◌, ◌&&◌, not, ◌≤◌};
ghost use Rattle.machine.specs.State.{allowed_length, block_fits, is_pending, map_fits, valid_kernel_status};
ghost use Rattle.machine.specs.State.{valid_status, valid_user_status};

use machine::{Map, RealAddress};

// ---- Memory and blocks

// Number 1 has nothing to refuse.
pub fn length_allowed(n: usize) -> bool
    ensures { result ≡ allowed_length n }
{
    n % 512 == 0 && 512 <= n && n <= 16777216
}

// A block of that many bytes lies at a multiple of 4 inside a memory of n bytes.
pub fn block_fits(a: RealAddress, bytes: u64, n: usize) -> bool
    requires { bytes ≤ 0x4_0000_0000 }
    ensures { result ≡ block_fits a bytes n }
{
    a.0 % 4 == 0 && a.0 as u64 + bytes <= n as u64
}

// Number 4 has nothing to refuse: a map lies so too, an empty one too.
pub fn map_fits(map: Map, n: usize) -> bool
    ensures { result ≡ map_fits map n }
{
    block_fits(map.base, 4 * (map.length as u64), n)
}

// ---- Status and pending set

pub fn is_valid(status: u32) -> bool
    ensures { result ≡ valid_status status }
{
    status % 0x8000_0000 / 0x100 == 0
}

pub fn is_valid_user(status: u32) -> bool
    ensures { result ≡ valid_user_status status }
{
    status < 0x8000_0000 && is_valid(status)
}

pub fn is_valid_kernel(status: u32) -> bool
    ensures { result ≡ valid_kernel_status status }
{
    0x8000_0000 <= status && is_valid(status)
}

// Number 5 has nothing to refuse: a valid status, and level 0 not pending.
pub fn state_valid(status: u32, pending: u16) -> bool
    ensures { result ≡ (valid_status status && not (is_pending pending 0)) }
{
    is_valid(status) && pending % 2 != 1
}
