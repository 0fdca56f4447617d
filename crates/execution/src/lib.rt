// Commands one after another, as long as they end quietly and reach no watched address: each by the
// quick way, or from its start by the general one. The sixteen registers are passed by value and
// returned.
#![tactic(auto)]

ghost use Rattle.std.specs.Prelude.{◌≡◌, length, ◌%◌};
ghost use Rattle.execution.specs.Rows.{Rowed};
ghost use Rattle.lookup.specs.Answers.{Fits};
ghost use Rattle.watch.specs.Addresses.{Covers};

use machine::{Fault, Map};
use results::Out;

// What some commands came to: the registers and the status after those that ended quietly, which
// are the ones from the start of the next; how many did; and of the next one, where there is one,
// its registers and how it ended. Where it alarmed, these are the registers from its start. Where
// there is none, `out` is Done.
#[derive(Clone, Copy)]
pub struct Ended {
    pub registers: [u32; 16],
    pub status: u32,
    pub count: u64,
    pub work: [u32; 16],
    pub out: Result<Out, Fault>,
}

// After the last command that ended quietly, and before the next.
fn paused(registers: [u32; 16], status: u32, count: u64) -> Ended
    ensures { result ≡ record
        { registers = registers; status = status; count = count; work = registers; out = Ok (Out.Done status) } }
{
    Ended {
        registers,
        status,
        count,
        work: registers,
        out: Ok(Out::Done(status)),
    }
}

// The commands from R15 on, at most n, up to the first that does not end quietly, or before a later
// one at a watched address; the filter lets those addresses pass.
pub fn exec(
    mem: &mut [u8],
    registers: [u32; 16],
    status: u32,
    map: Map,
    n: u64,
    watched: &[u32],
    filter: u64,
) -> Ended
    requires fits { Fits map mem.old }
    requires covers { Covers filter watched.now }
    requires watched_len { length watched.now % 16 ≡ 0 }
    ensures { Rowed watched.now n status map registers mem.old result.registers result.status
        result.count result.work mem.new result.out }
{
    let table = rules::table();
    let mut regs = registers;
    let mut now = status;
    for count in 0..n {
        let mut quiet = quick::command(mem, &mut regs, now, map, &table);
        if quiet.is_none() {
            let saved = regs;
            let out = commands::command(mem, &mut regs, now, map, &table);
            let Ok(end) = out else {
                return Ended {
                    registers: saved,
                    status: now,
                    count,
                    work: saved,
                    out,
                };
            };
            let Out::Done(s) = end else {
                return Ended {
                    registers: saved,
                    status: now,
                    count,
                    work: regs,
                    out,
                };
            };
            quiet = Some(s);
        }
        now = quiet.unwrap();
        if filter != 0 && watch::met(watched, filter, regs[15]) {
            return paused(regs, now, count + 1);
        }
    }
    paused(regs, now, n)
}
