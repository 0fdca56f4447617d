// The match over the command byte: what a command does with its operands' numbers.
#![tactic(auto)]

ghost use Rattle.std.specs.Prelude.{◌≡◌};
ghost use Rattle.actions.specs.Actions.{action_of, result_action};
ghost use Rattle.machine.specs.Code.{DIV};
ghost use Rattle.machine.specs.State.{flag_c, flag_n, flag_v, flag_z};
ghost use Rattle.machine.specs.Words.{size_at};

use machine::{Alarm, Fault, IntegerResult, Size};

// What a command does with its operands' numbers.
#[derive(Clone, Copy)]
pub enum Action {
    // A result for the target.
    Give(Size, IntegerResult),
    // New flags alone.
    Flags(u32),
    // A jump to the first number, taken or not.
    Jump(bool),
    Push,
    Pop,
    Call,
    Return,
    System,
    Halt,
    Resume,
}

// The size of a row's byte k. Arms for 0, 1 and 2, of which the compiler makes a table.
fn size_at(k: u32) -> Size
    ensures { result ≡ size_at k }
{
    match k {
        0 => Size::B,
        1 => Size::H,
        2 => Size::W,
        _ => Size::W,
    }
}

// 15: division by zero.
fn divide(size: Size, a: u32, b: u32) -> Result<Action, Fault>
    ensures { result ≡ result_action DIV size a b }
{
    if integers::low(size, a) == 0 {
        return Err(Fault {
            alarm: Alarm::Divide,
            argument: 0,
        });
    }
    Ok(Action::Give(size, products::divide(size, a, b)))
}

// The flags' bits.
pub fn flag_n(f: u32) -> bool
    ensures { result ≡ flag_n f }
{
    f / 8 % 2 == 1
}

pub fn flag_z(f: u32) -> bool
    ensures { result ≡ flag_z f }
{
    f / 4 % 2 == 1
}

pub fn flag_v(f: u32) -> bool
    ensures { result ≡ flag_v f }
{
    f / 2 % 2 == 1
}

pub fn flag_c(f: u32) -> bool
    ensures { result ≡ flag_c f }
{
    f % 2 == 1
}

// The operation of a command byte, from the flags and the first two operands' numbers; 12 for an
// unknown byte.
pub fn action_of(b: u32, f: u32, x: u32, y: u32) -> Result<Action, Fault>
    ensures { result ≡ action_of b f x y }
{
    let s = size_at(b % 4);
    let action = match b {
        0x00 => Action::Halt,
        0x01 => Action::Push,
        0x02 => Action::Pop,
        0x03 => Action::System,
        0x05 => Action::Resume,
        0x10..=0x12 => Action::Give(s, integers::plain(s, integers::low(s, x))),
        0x14..=0x16 => Action::Give(s, integers::plain(s, 0)),
        0x18..=0x1A => Action::Give(s, sums::subtract(s, x, 0)),
        0x1C..=0x1E => Action::Give(s, integers::plain(s, integers::complement(s, x))),
        0x20 => Action::Give(Size::W, integers::plain(Size::W, x)),
        0x21 => Action::Give(Size::W, integers::plain(Size::W, integers::extend(x))),
        0x28..=0x2A | 0x2C..=0x2E => Action::Give(s, integers::or(s, x, y)),
        0x30..=0x32 | 0x34..=0x36 => Action::Give(s, integers::and_not(s, x, y)),
        0x38..=0x3A | 0x3C..=0x3E => Action::Give(s, integers::xor(s, x, y)),
        0x40..=0x42 | 0x44..=0x46 => Action::Give(s, sums::add(s, x, y)),
        0x48..=0x4A | 0x4C..=0x4E => Action::Give(s, sums::subtract(s, x, y)),
        0x50..=0x52 | 0x54..=0x56 => Action::Give(s, products::multiply(s, x, y)),
        0x58..=0x5A | 0x5C..=0x5E => return divide(s, x, y),
        0x60 => Action::Give(Size::W, shifts::shift(x, y)),
        0x61 => Action::Give(Size::W, shifts::rotate(x, y)),
        0x64..=0x66 => Action::Flags(sums::compare(s, x, y)),
        0x70 => Action::Jump(true),
        0x71 => Action::Jump(flag_z(f)),
        0x72 => Action::Jump(!flag_z(f)),
        0x73 => Action::Jump(!(flag_n(f) | flag_z(f))),
        0x74 => Action::Jump(!flag_n(f)),
        0x75 => Action::Jump(flag_n(f)),
        0x76 => Action::Jump(flag_n(f) | flag_z(f)),
        0x77 => Action::Jump(flag_v(f)),
        0x78 => Action::Jump(flag_c(f)),
        0x79 => Action::Call,
        0x7A => Action::Return,
        _ => {
            return Err(Fault {
                alarm: Alarm::Command,
                argument: b,
            });
        }
    };
    Ok(action)
}
