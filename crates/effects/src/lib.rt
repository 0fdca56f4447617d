// What a command byte does with its operands' numbers, for the commands that the quick way knows: as
// `actions` has it, by single bytes, so that the compiler makes a table of jumps, and with each size
// a constant.
#![tactic(auto)]

ghost use Rattle.std.specs.Prelude.{◌≡◌};
ghost use Rattle.effects.specs.Effects.{EffectOf, NarrowOf};

use actions::Action;
use machine::{IntegerResult, Size};

fn gives(x: IntegerResult) -> Option<Action>
    ensures { result ≡ Some (Action.Give Size.W x) }
{
    Some(Action::Give(Size::W, x))
}

fn jumps(taken: bool) -> Option<Action>
    ensures { result ≡ Some (Action.Jump taken) }
{
    Some(Action::Jump(taken))
}

// The operation of a command byte on words, a jump, CALL or RET; None of any other byte.
pub fn effect_of(b: u32, f: u32, x: u32, y: u32) -> Option<Action>
    ensures { EffectOf b f x y result }
{
    match b {
        0x12 => gives(integers::plain(Size::W, x)),
        0x16 => gives(integers::plain(Size::W, 0)),
        0x1A => gives(sums::subtract(Size::W, x, 0)),
        0x1E => gives(integers::plain(Size::W, integers::complement(Size::W, x))),
        0x20 => gives(integers::plain(Size::W, x)),
        0x2A | 0x2E => gives(integers::or(Size::W, x, y)),
        0x32 | 0x36 => gives(integers::and_not(Size::W, x, y)),
        0x3A | 0x3E => gives(integers::xor(Size::W, x, y)),
        0x42 | 0x46 => gives(sums::add(Size::W, x, y)),
        0x4A | 0x4E => gives(sums::subtract(Size::W, x, y)),
        0x52 | 0x56 => gives(products::multiply(Size::W, x, y)),
        0x60 => gives(shifts::shift(x, y)),
        0x61 => gives(shifts::rotate(x, y)),
        0x66 => Some(Action::Flags(sums::compare(Size::W, x, y))),
        0x70 => jumps(true),
        0x71 => jumps(actions::flag_z(f)),
        0x72 => jumps(!actions::flag_z(f)),
        0x73 => jumps(!(actions::flag_n(f) | actions::flag_z(f))),
        0x74 => jumps(!actions::flag_n(f)),
        0x75 => jumps(actions::flag_n(f)),
        0x76 => jumps(actions::flag_n(f) | actions::flag_z(f)),
        0x77 => jumps(actions::flag_v(f)),
        0x78 => jumps(actions::flag_c(f)),
        0x79 => Some(Action::Call),
        0x7A => Some(Action::Return),
        _ => None,
    }
}

// What a command on bytes or halfwords does with its operands' numbers: a result of its size; new
// flags alone.
#[derive(Clone, Copy)]
pub enum NarrowEffect {
    Gives(IntegerResult),
    Flags(u32),
}

fn narrow(x: IntegerResult) -> Option<NarrowEffect>
    ensures { result ≡ Some (NarrowEffect.Gives x) }
{
    Some(NarrowEffect::Gives(x))
}

// The same for bytes and halfwords.
pub fn narrow_effect_of(b: u32, x: u32, y: u32) -> Option<NarrowEffect>
    ensures { NarrowOf b x y result }
{
    match b {
        0x10 => narrow(integers::plain(Size::B, integers::low(Size::B, x))),
        0x14 => narrow(integers::plain(Size::B, 0)),
        0x18 => narrow(sums::subtract(Size::B, x, 0)),
        0x1C => narrow(integers::plain(Size::B, integers::complement(Size::B, x))),
        0x28 | 0x2C => narrow(integers::or(Size::B, x, y)),
        0x30 | 0x34 => narrow(integers::and_not(Size::B, x, y)),
        0x38 | 0x3C => narrow(integers::xor(Size::B, x, y)),
        0x40 | 0x44 => narrow(sums::add(Size::B, x, y)),
        0x48 | 0x4C => narrow(sums::subtract(Size::B, x, y)),
        0x50 | 0x54 => narrow(products::multiply(Size::B, x, y)),
        0x64 => Some(NarrowEffect::Flags(sums::compare(Size::B, x, y))),
        0x11 => narrow(integers::plain(Size::H, integers::low(Size::H, x))),
        0x15 => narrow(integers::plain(Size::H, 0)),
        0x19 => narrow(sums::subtract(Size::H, x, 0)),
        0x1D => narrow(integers::plain(Size::H, integers::complement(Size::H, x))),
        0x29 | 0x2D => narrow(integers::or(Size::H, x, y)),
        0x31 | 0x35 => narrow(integers::and_not(Size::H, x, y)),
        0x39 | 0x3D => narrow(integers::xor(Size::H, x, y)),
        0x41 | 0x45 => narrow(sums::add(Size::H, x, y)),
        0x49 | 0x4D => narrow(sums::subtract(Size::H, x, y)),
        0x51 | 0x55 => narrow(products::multiply(Size::H, x, y)),
        0x65 => Some(NarrowEffect::Flags(sums::compare(Size::H, x, y))),
        _ => None,
    }
}
