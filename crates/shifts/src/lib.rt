// SH and ROT, of words. a is the first operand's value, the count; b the second's, the word.
#![tactic(auto)]

ghost use Rattle.std.specs.Prelude.{◌≡◌, ◌*◌, ◌/◌, ◌%◌, ◌^◌, ◌≤◌, ◌<◌, pos, ◌*ℤ◌};
ghost use Rattle.machine.specs.Words.{span};
ghost use Rattle.machine.specs.Integers.{signed, fits};
ghost use Rattle.machine.specs.Integers.{shifted_left, shifted_right, shifted, rotated};

use machine::{IntegerResult, Size};

// n times to the left, a zero bit from the right each time.
fn left(n: u32, x: u32) -> u32
    ensures { result ≡ x * 2 ^ n % span 4 }
{
    if n < 32 { x << n } else { 0 }
}

// n times to the right, a zero bit from the left each time.
fn right(n: u32, x: u32) -> u32
    ensures value { result ≡ x / 2 ^ n }
    ensures small { result ≤ x }
{
    if n < 32 { x >> n } else { 0 }
}

// The signed word times 2 ^ n, as a whole number, fits a signed word: the word is at most the
// highest one and at least the lowest one, both divided by 2 ^ n, the fraction dropped. A negative
// word is minus its complement and one more, so that < stands for <= there.
fn fits_left(n: u32, b: u32) -> bool
    ensures { result ≡ fits 4 (signed 4 b *ℤ pos (2 ^ n)) }
{
    if integers::is_negative(Size::W, b) {
        return 4294967295 - b < right(n, 2147483648);
    }
    b <= right(n, 2147483647)
}

fn shift_left(n: u32, b: u32) -> IntegerResult
    ensures value { result ≡ shifted_left n b }
    ensures small { result.flags < 16 }
{
    integers::result(Size::W, left(n, b), !fits_left(n, b), false)
}

// A negative word is shifted as its complement, since one bits come in.
fn shift_right(n: u32, b: u32) -> IntegerResult
    ensures value { result ≡ shifted_right n b }
    ensures small { result.flags < 16 }
{
    if integers::is_negative(Size::W, b) {
        return integers::plain(Size::W, 4294967295 - right(n, 4294967295 - b));
    }
    integers::plain(Size::W, right(n, b))
}

pub fn shift(a: u32, b: u32) -> IntegerResult
    ensures value { result ≡ shifted a b }
    ensures small { result.flags < 16 }
{
    if a < 0x8000_0000 {
        return shift_left(a, b);
    }
    shift_right(4294967295 - a + 1, b)
}

// The word twice, side by side: shifted left by n, its upper half is the word rotated.
pub fn rotate(a: u32, b: u32) -> IntegerResult
    ensures value { result ≡ rotated a b }
    ensures small { result.flags < 16 }
{
    let n = a % 32;
    let twice = (b as u64) * 4294967297;
    integers::plain(Size::W, ((twice >> (32 - n)) % 4294967296) as u32)
}
