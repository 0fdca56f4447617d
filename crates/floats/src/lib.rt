// Floating numbers: their bits, the operations on them, their flags. a is the first operand's value, b
// the second's.
#![tactic(auto)]

ghost use Rattle.std.specs.Prelude.{◌≡◌, ◌||◌, is_nan};
ghost use Rattle.std.specs.Float.{binary32, binary64};
ghost use Rattle.floats.specs.Values.{bits_in, combined, float_of, number_in, result_in};
ghost use Rattle.machine.specs.Floats.{bits_of, compared_floats, computed, infinite, number_flags, number_of};

use machine::{Arithmetic, FloatResult, Kind};

// An operand's value: a short or a long floating number.
#[derive(Clone, Copy)]
pub enum Float {
    Short(f32),
    Long(f64),
}

// ---- Numbers and bits

// The number of the low four bytes; every pattern of a NaN is the NaN.
fn short_of(bits: u64) -> f32
    ensures { result ≡ number_of Kind.F bits }
{
    let a = (bits % 4294967296) as u32;
    if a % 0x8000_0000 > 0x7F80_0000 {
        return 0.0f32 / 0.0f32;
    }
    f32::from_bits(a)
}

fn long_of(bits: u64) -> f64
    ensures { result ≡ number_of Kind.D bits }
{
    if bits % 0x8000_0000_0000_0000 > 0x7FF0_0000_0000_0000 {
        return 0.0f64 / 0.0f64;
    }
    f64::from_bits(bits)
}

// The bits of a number; a NaN has one pattern.
fn short_bits(x: f32) -> u64
    ensures { result ≡ bits_of Kind.F x }
{
    if x != x {
        return 0x7FC0_0000;
    }
    f32::to_bits(x) as u64
}

fn long_bits(x: f64) -> u64
    ensures { result ≡ bits_of Kind.D x }
{
    if x != x {
        return 0x7FF8_0000_0000_0000;
    }
    f64::to_bits(x)
}

// The value that some bits of a kind stand for.
pub fn value(kind: Kind, bits: u64) -> Float
    ensures { result ≡ float_of kind bits }
{
    match kind {
        Kind::F => Float::Short(short_of(bits)),
        Kind::D => Float::Long(long_of(bits)),
    }
}

// The bits of a value.
fn bits(x: Float) -> u64
    ensures { result ≡ bits_in x }
{
    match x {
        Float::Short(s) => short_bits(s),
        Float::Long(l) => long_bits(l),
    }
}

// The number itself: a long one holds every short one.
fn number(x: Float) -> f64
    ensures { result ≡ number_in x }
{
    match x {
        Float::Short(s) => std::num::f32_to_f64_with_nan(s),
        Float::Long(l) => l,
    }
}

// ---- Flags, for both kinds at once

// V: infinite or NaN, that is, not strictly between the infinities.
fn infinite_or_nan(x: f64) -> bool
    ensures { result ≡ (infinite x || is_nan x) }
{
    !(x < 1.0 / 0.0) | !(-1.0 / 0.0 < x)
}

fn number_flags(x: f64) -> u32
    ensures { result ≡ number_flags x }
{
    integers::flags(x < 0.0, x == 0.0, infinite_or_nan(x), false)
}

// N, Z and V of a value.
fn flags(x: Float) -> u32
    ensures { result ≡ number_flags (number_in x) }
{
    number_flags(number(x))
}

// CMP: the order of two numbers.
fn order(x: f64, y: f64) -> u32
    ensures { result ≡ compared_floats x y }
{
    integers::flags(x < y, x == y, (x != x) | (y != y), false)
}

// ---- Operations

fn short(op: Arithmetic, x: f32, y: f32) -> f32
    ensures { result ≡ computed op binary32 x y }
{
    match op {
        Arithmetic::Add => y + x,
        Arithmetic::Sub => y - x,
        Arithmetic::Mult => y * x,
        Arithmetic::Div => y / x,
    }
}

fn long(op: Arithmetic, x: f64, y: f64) -> f64
    ensures { result ≡ computed op binary64 x y }
{
    match op {
        Arithmetic::Add => y + x,
        Arithmetic::Sub => y - x,
        Arithmetic::Mult => y * x,
        Arithmetic::Div => y / x,
    }
}

// On two values of one kind; of two kinds, which no command has, the first.
fn combine(op: Arithmetic, a: Float, b: Float) -> Float
    ensures { result ≡ combined op a b }
{
    match a {
        Float::Short(x) => match b {
            Float::Short(y) => Float::Short(short(op, x, y)),
            Float::Long(_) => Float::Short(x),
        },
        Float::Long(x) => match b {
            Float::Long(y) => Float::Long(long(op, x, y)),
            Float::Short(_) => Float::Long(x),
        },
    }
}

// ADD, SUB, MULT, DIV of two operands' values.
pub fn arithmetic(op: Arithmetic, a: Float, b: Float) -> FloatResult
    ensures { result ≡ result_in (combined op a b) }
{
    let z = combine(op, a, b);
    FloatResult {
        bits: bits(z),
        flags: flags(z),
    }
}

// MOVE of the value x keeps its bits.
pub fn moved(kept: u64, x: Float) -> FloatResult
    ensures { result ≡ record { bits = kept; flags = number_flags (number_in x) } }
{
    FloatResult {
        bits: kept,
        flags: flags(x),
    }
}

// CMP of two operands' values: the flags.
pub fn compare(a: Float, b: Float) -> u32
    ensures { result ≡ compared_floats (number_in a) (number_in b) }
{
    order(number(a), number(b))
}
