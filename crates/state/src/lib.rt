// The state of a desk, put together in one place: fresh, all zeros, with other parts, resumed.
#![tactic(auto)]

ghost use Rattle.std.specs.Prelude.{◌≡◌};
ghost use Rattle.machine.specs.Calls.{fresh_desk, zero_desk};
ghost use Rattle.machine.specs.State.{desk_resumed, desk_with};

use machine::{Desk, Map, Mark, RealAddress, VirtualAddress};

// A desk of its parts.
pub fn new(
    registers: [u32; 16],
    status: u32,
    pending: u16,
    map: Map,
    system: RealAddress,
    control: RealAddress,
    mark: Mark,
) -> Desk
    ensures { result ≡ record {
      registers = registers;
      status = status;
      pending = pending;
      map = map;
      system = system;
      control = control;
      mark = mark;
    } }
{
    Desk {
        registers,
        status,
        pending,
        map,
        system,
        control,
        mark,
    }
}

// No map: an empty one at 0.
const NO_MAP: Map = Map {
    base: RealAddress(0),
    length: 0,
};

// Kernel mode, zero registers but R15, no map.
pub fn fresh(system: RealAddress, control: RealAddress, start: VirtualAddress) -> Desk
    ensures { result ≡ fresh_desk system control start }
{
    let mut registers = [0; 16];
    registers[15] = start.0;
    Desk {
        registers,
        status: 0x8000_0000,
        pending: 0,
        map: NO_MAP,
        system,
        control,
        mark: Mark::Running,
    }
}

// All zeros, stopped with a number.
pub fn zero(number: u32) -> Desk
    ensures { result ≡ zero_desk number }
{
    Desk {
        registers: [0; 16],
        status: 0,
        pending: 0,
        map: NO_MAP,
        system: RealAddress(0),
        control: RealAddress(0),
        mark: Mark::Stopped(number),
    }
}

// With other registers, status, pending set and mark.
pub fn with(d: Desk, registers: [u32; 16], status: u32, pending: u16, mark: Mark) -> Desk
    ensures { result ≡ desk_with d registers status pending mark }
{
    Desk {
        registers,
        status,
        pending,
        mark,
        ..d
    }
}

// With what RESUME loads from a control block, which becomes the desk's own.
pub fn resumed(d: Desk, registers: [u32; 16], status: u32, map: Map, control: RealAddress) -> Desk
    ensures { result ≡ desk_resumed d registers status map control }
{
    Desk {
        registers,
        status,
        map,
        control,
        ..d
    }
}
