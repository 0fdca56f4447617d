// The pending set, and the interrupt level that is due.
#![tactic(auto)]

ghost use Rattle.std.specs.Prelude.{◌≡◌, ◌^◌, ◌≤◌};
ghost use Rattle.levels.specs.Due.{interrupt_of};
ghost use Rattle.machine.specs.State.{with_level, without_level};
ghost use Rattle.machine.specs.Steps.{due as due_of};

// The pending set with a level, which is at most 15.
pub fn with_level(pending: u16, level: u32) -> u16
    requires { level ≤ 15 }
    ensures { result ≡ with_level pending level }
{
    let p = pending as u32;
    let bit = 1u32 << level;
    if (p >> level) % 2 == 1 {
        return pending;
    }
    (p + bit) as u16
}

// The pending set without a level that is in it.
pub fn without_level(pending: u16, level: u32) -> u16
    requires { (level ≤ 15) × (2 ^ level ≤ pending) }
    ensures { result ≡ without_level pending level }
{
    pending - (1u16 << level)
}

// The highest pending level above the status level; 0 for none.
fn due(pending: u16, level: u32) -> u32
    ensures value { result ≡ due_of 15 pending level }
    ensures small { result ≤ 15 }
{
    for k in (1..16).rev() {
        if (pending >> k) % 2 == 1 && level < k {
            return k;
        }
    }
    0
}

// The interrupt level that is due; 0 for none. In kernel mode pending levels wait.
pub fn interrupt(status: u32, pending: u16) -> u32
    ensures value { result ≡ interrupt_of status pending }
    ensures small { result ≤ 15 }
{
    if pending != 0 && status < 0x8000_0000 {
        due(pending, status / 16 % 16)
    } else {
        0
    }
}
