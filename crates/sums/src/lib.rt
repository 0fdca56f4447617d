// ADD, SUB and CMP: sums, differences and the order of signed numbers.
// a is the first operand's value, b the second's; of each the last L bytes count.
#![tactic(auto)]

ghost use Rattle.std.specs.Prelude.{◌≡◌, ◌+◌, ◌%◌, ◌<◌};
ghost use Rattle.machine.specs.Words.{length_of, span};
ghost use Rattle.machine.specs.Integers.{half, natural, added, subtracted, compared};

use machine::{IntegerResult, Size};

// A signed value moved up by half the span, which keeps the order. x is of the size.
fn biased(size: Size, x: u32) -> u64
    requires { x < span (length_of size) }
    ensures value { result ≡ (x + half (length_of size)) % span (length_of size) }
    ensures small { result < 4294967296 }
{
    (x as u64) ^ integers::half_of(size)
}

pub fn add(size: Size, a: u32, b: u32) -> IntegerResult
    ensures value { result ≡ added (length_of size) (natural (length_of size) a) (natural (length_of size) b) }
    ensures small { result.flags < 16 }
{
    let p = integers::low(size, a);
    let q = integers::low(size, b);
    let x = integers::low(size, q.wrapping_add(p));
    let h = integers::half_of(size);
    let m = integers::span_of(size);
    let t = biased(size, q) + biased(size, p);
    let fits = (h <= t) & (t < h + m);
    integers::result(size, x, !fits, m <= q as u64 + p as u64)
}

pub fn subtract(size: Size, a: u32, b: u32) -> IntegerResult
    ensures value { result ≡ subtracted (length_of size) (natural (length_of size) a) (natural (length_of size) b) }
    ensures small { result.flags < 16 }
{
    let p = integers::low(size, a);
    let q = integers::low(size, b);
    let x = integers::low(size, q.wrapping_sub(p));
    let h = integers::half_of(size);
    let s = biased(size, p);
    let t = biased(size, q);
    let fits = (s <= t + h) & (t < h + s);
    integers::result(size, x, !fits, q < p)
}

// CMP's flags.
pub fn compare(size: Size, a: u32, b: u32) -> u32
    ensures value { result ≡ compared (length_of size) (natural (length_of size) a) (natural (length_of size) b) }
    ensures small { result < 16 }
{
    let p = integers::low(size, a);
    let q = integers::low(size, b);
    integers::flags(biased(size, p) < biased(size, q), p == q, false, false)
}
