// Refusals 1 to 5 and 7, in number order.
#![tactic(auto)]

ghost use Rattle.std.specs.Prelude.{◌≡◌};
ghost use Rattle.machine.specs.Calls.{fresh_refusal, step_refusal};

use machine::{Desk, Mark, RealAddress, Refusal};

// Refusals 1 to 3, in number order: the memory's length and the two blocks.
pub fn block_refusal(n: usize, system: RealAddress, control: RealAddress) -> Result<(), Refusal>
    ensures { result ≡ fresh_refusal n system control }
{
    if !checks::length_allowed(n) {
        return Err(Refusal::Length);
    }
    if !checks::block_fits(system, machine::SYSTEM_BLOCK_BYTES, n) {
        return Err(Refusal::SystemBlock);
    }
    if !checks::block_fits(control, machine::CONTROL_BLOCK_BYTES, n) {
        return Err(Refusal::ControlBlock);
    }
    Ok(())
}

// Refusals 1 to 5 and 7, in number order, of a step or a run over a memory of n bytes.
pub fn refusal(d: Desk, n: usize) -> Result<(), Refusal>
    ensures { result ≡ step_refusal d n }
{
    block_refusal(n, d.system, d.control)?;
    if !checks::map_fits(d.map, n) {
        return Err(Refusal::Map);
    }
    if !checks::state_valid(d.status, d.pending) {
        return Err(Refusal::Status);
    }
    match d.mark {
        Mark::Running => Ok(()),
        Mark::Stopped(_) => Err(Refusal::Stopped),
    }
}
