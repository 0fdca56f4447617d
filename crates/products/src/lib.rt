// MULT and DIV, by sign and magnitude. a is the first operand's value, b the second's; of each the
// last L bytes count.
#![tactic(auto)]

ghost use Rattle.std.specs.Prelude.{◌≡◌, ◌-◌, ◌%◌, ◌<◌, ◌≤◌, nat_le, nat_lt};
ghost use Rattle.machine.specs.Words.{pick, length_of, span};
ghost use Rattle.machine.specs.Integers.{half, natural, negative, multiplied, divided};

use machine::{IntegerResult, Size};

// The number without its sign. x is of the size.
fn magnitude(size: Size, x: u32) -> u32
    requires { x < span (length_of size) }
    ensures value { result ≡ pick (negative (length_of size) x) (span (length_of size) - x) x }
    ensures small { result ≤ half (length_of size) }
{
    if integers::is_negative(size, x) {
        return (integers::span_of(size) - x as u64) as u32;
    }
    x
}

// A number with that sign and magnitude fits the size.
fn in_range(size: Size, negative: bool, n: u64) -> bool
    ensures { result ≡ pick negative (nat_le n (half (length_of size))) (nat_lt n (half (length_of size))) }
{
    let h = integers::half_of(size);
    if negative { n <= h } else { n < h }
}

pub fn multiply(size: Size, a: u32, b: u32) -> IntegerResult
    ensures value { result ≡ multiplied (length_of size) (natural (length_of size) a) (natural (length_of size) b) }
    ensures small { result.flags < 16 }
{
    let p = integers::low(size, a);
    let q = integers::low(size, b);
    let x = integers::low(size, ((q as u64) * (p as u64) % 4294967296) as u32);
    let negative = integers::signs_differ(size, q, p);
    let n = (magnitude(size, q) as u64) * (magnitude(size, p) as u64);
    integers::result(size, x, !in_range(size, negative, n), false)
}

// The last L bytes of a number with that sign and magnitude.
fn with_sign(size: Size, negative: bool, n: u32) -> u32
    requires { n ≤ half (length_of size) }
    ensures { result ≡ pick negative (span (length_of size) - n) n % span (length_of size) }
{
    if negative {
        return integers::low(size, 0u32.wrapping_sub(n));
    }
    integers::low(size, n)
}

// a is not 0 in its last L bytes.
pub fn divide(size: Size, a: u32, b: u32) -> IntegerResult
    requires { 0 < natural (length_of size) a }
    ensures value { result ≡ divided (length_of size) (natural (length_of size) a) (natural (length_of size) b) }
    ensures small { result.flags < 16 }
{
    let p = integers::low(size, a);
    let q = integers::low(size, b);
    let negative = integers::signs_differ(size, q, p);
    let n = magnitude(size, q) / magnitude(size, p);
    let x = with_sign(size, negative, n);
    integers::result(size, x, !in_range(size, negative, n as u64), false)
}
