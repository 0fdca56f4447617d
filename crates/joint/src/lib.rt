// Loads two lists into one memory. Memory stays as it is where they clash, so that this is found out
// before anything is put, in a scratch that the caller lends.
#![tactic(auto)]

ghost use Rattle.std.specs.Prelude.{◌≡◌};
ghost use Rattle.joint.specs.declared.JointRefusal.TheVariants.{Load};
ghost use Rattle.joint.specs.Joint.{joint_of, joint_refusal_number, loaded_both};

use lists::{DESK_PIECES, LoadRefusal};

// Why two lists are not loaded: as one list is not, with its number; or 22 and 23.
#[derive(Clone, Copy, Debug, PartialEq, Eq)]
pub enum JointRefusal {
    Load(LoadRefusal),
    Scratch,
    Clash,
}

impl From<LoadRefusal> for JointRefusal {
    ghost from_gives = { λ k r. r ≡ Load k };

    fn from(refusal: LoadRefusal) -> JointRefusal {
        JointRefusal::Load(refusal)
    }
}

// The number of a refusal in documents 01 and 02.
impl From<JointRefusal> for u32 {
    ghost from_gives = { λ k n. n ≡ joint_refusal_number k };

    fn from(refusal: JointRefusal) -> u32 {
        match refusal {
            JointRefusal::Load(k) => u32::from(k),
            JointRefusal::Scratch => 22,
            JointRefusal::Clash => 23,
        }
    }
}

// Loads two lists into a memory, or refuses them and leaves it. The scratch is all zeros where they are
// loaded or clash, else as it was.
pub fn load_both(
    mem: &mut [u8],
    first: &[u8],
    second: &[u8],
    scratch: &mut [u8],
) -> Result<(), JointRefusal>
    ensures { loaded_both result mem.new scratch.new
        ≡ joint_of mem.old first.now second.now scratch.old }
{
    let n = mem.len();
    if !checks::length_allowed(n) {
        return Err(JointRefusal::Load(LoadRefusal::Length));
    }
    lists::judge(first, n, DESK_PIECES)?;
    lists::judge(second, n, DESK_PIECES)?;
    if scratch.len() < n {
        return Err(JointRefusal::Scratch);
    }
    if clash::found(scratch, n, first, second) {
        return Err(JointRefusal::Clash);
    }
    load::put_all(mem, first);
    load::put_all(mem, second);
    Ok(())
}
