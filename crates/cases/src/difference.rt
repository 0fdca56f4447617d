// What the desk and the model differ in first.
use std::fmt;

#[derive(Clone, Copy, Debug, PartialEq, Eq)]
pub enum Difference {
    Refusal,
    Event,
    Cause,
    StopNumber,
    // The words that a kernel entry saves in the control block.
    Saved,
    // The steps that a run counts.
    Count,
    // Whether a run was held, and by which breakpoint.
    Hold,
    State,
    Memory,
    // The scratch that joint loading leaves.
    Scratch,
    // The fields do not fill the case's bytes.
    Format,
}

// The difference of a case, and the call that it belongs to, counted from 1.
#[derive(Clone, Copy, Debug, PartialEq, Eq)]
pub struct Verdict {
    pub what: Difference,
    pub call: Option<u64>,
}

impl fmt::Display for Difference {
    fn fmt<W: fmt::Write>(&self, f: &mut fmt::Formatter<W>) -> fmt::Result {
        f.write_str(match self {
            Difference::Refusal => "refusal",
            Difference::Event => "event",
            Difference::Cause => "cause",
            Difference::StopNumber => "stop number",
            Difference::Saved => "saved words",
            Difference::Count => "count",
            Difference::Hold => "hold",
            Difference::State => "state",
            Difference::Memory => "memory",
            Difference::Scratch => "scratch",
            Difference::Format => "format",
        })
    }
}

impl fmt::Display for Verdict {
    fn fmt<W: fmt::Write>(&self, f: &mut fmt::Formatter<W>) -> fmt::Result {
        let what = self.what;
        match self.call {
            Some(call) => write!(f, "call {call}: {what}"),
            None => write!(f, "{what}"),
        }
    }
}
