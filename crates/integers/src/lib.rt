// Numbers of each size, their bits, and a result with its flags.
// a is the first operand's value, b the second's; of each the last L bytes count.
#![tactic(auto)]

ghost use Rattle.std.specs.Prelude.{◌≡◌, not, ◌≤◌, ◌<◌};
ghost use Rattle.std.specs.Int.Bits.{bit_and, bit_or, bit_xor};
ghost use Rattle.machine.specs.Words.{pick, length_of, span};
ghost use Rattle.machine.specs.State.{bit, flags as flags_from};
ghost use Rattle.machine.specs.Integers.{half, natural, negative, kept, signed, result_of};
ghost use Rattle.machine.specs.Integers.{plain as plain_of, complement as complement_of};

use machine::{IntegerResult, Size};

// The last L bytes.
pub fn low(size: Size, x: u32) -> u32
    ensures value { result ≡ natural (length_of size) x }
    ensures small { result < span (length_of size) }
{
    match size {
        Size::B => x % 256,
        Size::H => x % 65536,
        Size::W => x,
    }
}

// 256 ^ L.
pub fn span_of(size: Size) -> u64
    ensures value { result ≡ span (length_of size) }
    ensures small { result ≤ 4294967296 }
{
    match size {
        Size::B => 256,
        Size::H => 65536,
        Size::W => 4294967296,
    }
}

// The lowest number whose highest bit is set.
pub fn half_of(size: Size) -> u64
    ensures value { result ≡ half (length_of size) }
    ensures small { result ≤ 2147483648 }
{
    span_of(size) / 2
}

// The sign of a number of the size.
pub fn is_negative(size: Size, x: u32) -> bool
    ensures { result ≡ negative (length_of size) x }
{
    half_of(size) <= x as u64
}

fn differ(s: bool, t: bool) -> bool
    ensures { result ≡ pick s (not t) t }
{
    if s { !t } else { t }
}

// Of two numbers of the size exactly one is negative.
pub fn signs_differ(size: Size, x: u32, y: u32) -> bool
    ensures { result ≡ pick (negative (length_of size) x) (not (negative (length_of size) y))
        (negative (length_of size) y) }
{
    differ(is_negative(size, x), is_negative(size, y))
}

fn number(b: bool, w: u32) -> u32
    ensures value { result ≡ bit b w }
    ensures small { result ≤ w }
{
    if b { w } else { 0 }
}

pub fn flags(n: bool, z: bool, v: bool, c: bool) -> u32
    ensures value { result ≡ flags_from n z v c }
    ensures small { result < 16 }
{
    number(n, 8) + number(z, 4) + number(v, 2) + number(c, 1)
}

// N and Z from the result.
pub fn result(size: Size, x: u32, v: bool, c: bool) -> IntegerResult
    ensures value { result ≡ result_of (length_of size) x v c }
    ensures small { result.flags < 16 }
{
    let f = flags(is_negative(size, x), x == 0, v, c);
    IntegerResult { value: x, flags: f }
}

// V = C = 0.
pub fn plain(size: Size, x: u32) -> IntegerResult
    ensures value { result ≡ plain_of (length_of size) x }
    ensures small { result.flags < 16 }
{
    result(size, x, false, false)
}

pub fn complement(size: Size, a: u32) -> u32
    ensures { result ≡ complement_of (length_of size) (natural (length_of size) a) }
{
    let x = low(size, a);
    (span_of(size) - 1 - x as u64) as u32
}

// CONV: a byte as a word of the same signed value.
pub fn extend(a: u32) -> u32
    ensures { result ≡ kept 4 (signed 1 (natural 1 a)) }
{
    let x = a % 256;
    if 128 <= x { x + 4294967040 } else { x }
}

pub fn or(size: Size, a: u32, b: u32) -> IntegerResult
    ensures { result ≡ plain_of (length_of size) (bit_or (natural (length_of size) b) (natural (length_of size) a)) }
{
    plain(size, low(size, b) | low(size, a))
}

pub fn and_not(size: Size, a: u32, b: u32) -> IntegerResult
    ensures { result ≡ plain_of (length_of size)
        (bit_and (natural (length_of size) b) (complement_of (length_of size) (natural (length_of size) a))) }
{
    plain(size, low(size, b) & complement(size, a))
}

pub fn xor(size: Size, a: u32, b: u32) -> IntegerResult
    ensures { result ≡ plain_of (length_of size) (bit_xor (natural (length_of size) b) (natural (length_of size) a)) }
{
    plain(size, low(size, b) ^ low(size, a))
}
