// The system block and the control block: what a kernel entry reads and saves.
#![tactic(auto)]

ghost use Rattle.std.specs.Prelude.{◌≡◌, ◌+◌, ◌≤◌, drop, length, take};
ghost use Rattle.machine.specs.Map.{commit, real_writes_from};
ghost use Rattle.machine.specs.State.{entry_r15, entry_status, saved_byte_count, saved_bytes, system_block_bytes};

use machine::{RealAddress, Size};

// A kernel entry's 72 saved bytes: R0 to R15, status and argument.
pub fn save(mem: &mut [u8], control: RealAddress, regs: &[u32; 16], status: u32, argument: u32)
    requires { control.0 + saved_byte_count ≤ length mem.old }
    ensures { mem.new
        ≡ commit (real_writes_from control.0 (saved_bytes regs.now status argument)) mem.old }
{
    let at = control.0 as usize;
    words::put_words(mem, at, regs);
    words::value_to(mem, at + 64, Size::W, status);
    words::value_to(mem, at + 68, Size::W, argument);
}

// The new R15 of a cause, in the system block; past the block it is 0.
pub fn entry_r15(mem: &[u8], system: RealAddress, cause: u32) -> u32
    requires { system.0 + system_block_bytes ≤ length mem.now }
    ensures { result ≡ entry_r15 (take system_block_bytes (drop system.0 mem.now)) cause }
{
    if cause < 32 {
        return words::word(mem, system.0 as usize + 8 * (cause as usize));
    }
    0
}

// The new status of a cause.
pub fn entry_status(mem: &[u8], system: RealAddress, cause: u32) -> u32
    requires { system.0 + system_block_bytes ≤ length mem.now }
    ensures { result ≡ entry_status (take system_block_bytes (drop system.0 mem.now)) cause }
{
    if cause < 32 {
        return words::word(mem, system.0 as usize + (8 * (cause as usize) + 4));
    }
    0
}
