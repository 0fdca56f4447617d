// How a command ends, and the way of a result to its target. The working registers are lent; where
// the command alarms they are of no account.
#![tactic(auto)]

ghost use Rattle.std.specs.Prelude.{◌≡◌};
ghost use Rattle.forms.specs.Answers.{SmallTarget};
ghost use Rattle.lookup.specs.Answers.{Fits};
ghost use Rattle.machine.specs.Alarms.{got};
ghost use Rattle.machine.specs.Commands.{kept_rest, stored};
ghost use Rattle.machine.specs.State.{with_flags};
ghost use Rattle.machine.specs.Words.{length_of};
ghost use Rattle.results.specs.Ends.{end_in, out_as};

use machine::{Fault, IntegerResult, Map, Size, Target, VirtualAddress};

// How a command ended: with a new status; a system call with its argument; stopped; a control
// block's address to resume from.
#[derive(Clone, Copy)]
pub enum Out {
    Done(u32),
    System(u32),
    Halt,
    Resume(VirtualAddress),
}

pub fn with_flags(status: u32, f: u32) -> u32
    ensures { result ≡ with_flags status f }
{
    status / 16 * 16 + f % 16
}

// A register with its last L bytes replaced.
pub fn kept_rest(size: Size, old: u32, x: u32) -> u32
    ensures { result ≡ kept_rest (length_of size) old x }
{
    match size {
        Size::B => old / 256 * 256 + x % 256,
        Size::H => old / 0x1_0000 * 0x1_0000 + x % 0x1_0000,
        Size::W => x,
    }
}

// A result to its target.
pub fn put(
    mem: &mut [u8],
    regs: &mut [u32; 16],
    status: u32,
    map: Map,
    size: Size,
    x: IntegerResult,
    target: Target,
) -> Result<Out, Fault>
    requires { Fits map mem.old × SmallTarget target }
    ensures { out_as result regs.new mem.new
        ≡ end_in status map mem.old (λ v. got (stored (length_of size) x target regs.old)) }
{
    match target {
        Target::Nowhere => {}
        Target::Register(i) => {
            let k = i as usize;
            regs[k] = kept_rest(size, regs[k], x.value);
        }
        Target::Memory(a) => stores::store(mem, status, map, a, size, x.value)?,
    }
    Ok(Out::Done(with_flags(status, x.flags)))
}
