// The constant table: operand count, sizes and roles of each command byte; and the mode that a byte
// needs.
#![tactic(auto)]

ghost use Rattle.std.specs.Prelude.{◌≡◌, ◌/◌, ◌<◌, ◌≤◌};
ghost use Rattle.machine.specs.Code.{known, read_by, written_to};
ghost use Rattle.machine.specs.FloatCode.{known_float};
ghost use Rattle.rules.specs.Rules.{addressed_by, count_in, forbidden_of, kind_in, known_kind, known_roles};
ghost use Rattle.rules.specs.Rules.{known_rules, role_in, roles_in, rules_in, size_in, size_of};

use machine::{Kind, Role, Size};
pub use types::{Rules, Table};

mod types;

// Four hexadecimal digits a row: the operand count, then a digit for the third, the second and the
// first operand. A digit is 1 for B, 2 for H, 3 for W, and 0 for a value, 4 for an address, 8 for a
// destination, 12 for an update. From 0x80 on, where the commands are floating, a digit has 1 for F or
// 2 for D in place of the size. An unknown byte has no operands; from 0xA6 on all are unknown.
const RULES: [u16; 166] = [
    0x0000, // 0x00: HALT, PUSHR, POPR, system call
    0x0000, 0x0000, 0x1003, 0x0000, 0x1007, // 0x05: RESUME
    0x0000, 0x0000, 0x0000, 0x0000, 0x0000, 0x0000, 0x0000, 0x0000, 0x0000, 0x0000, 0x2091, // 0x10: MOVE
    0x20a2, 0x20b3, 0x0000, 0x1009, // 0x14: CLEAR
    0x100a, 0x100b, 0x0000, 0x2091, // 0x18: MOVEN
    0x20a2, 0x20b3, 0x0000, 0x2091, // 0x1C: MOVEC
    0x20a2, 0x20b3, 0x0000, 0x20b7, // 0x20: MOVEA, CONV
    0x20b1, 0x0000, 0x0000, 0x0000, 0x0000, 0x0000, 0x0000, 0x20d1, // 0x28: OR
    0x20e2, 0x20f3, 0x0000, 0x3911, 0x3a22, 0x3b33, 0x0000, 0x20d1, // 0x30: ANDNOT
    0x20e2, 0x20f3, 0x0000, 0x3911, 0x3a22, 0x3b33, 0x0000, 0x20d1, // 0x38: XOR
    0x20e2, 0x20f3, 0x0000, 0x3911, 0x3a22, 0x3b33, 0x0000, 0x20d1, // 0x40: ADD
    0x20e2, 0x20f3, 0x0000, 0x3911, 0x3a22, 0x3b33, 0x0000, 0x20d1, // 0x48: SUB
    0x20e2, 0x20f3, 0x0000, 0x3911, 0x3a22, 0x3b33, 0x0000, 0x20d1, // 0x50: MULT
    0x20e2, 0x20f3, 0x0000, 0x3911, 0x3a22, 0x3b33, 0x0000, 0x20d1, // 0x58: DIV
    0x20e2, 0x20f3, 0x0000, 0x3911, 0x3a22, 0x3b33, 0x0000, 0x3b33, // 0x60: SH, ROT
    0x3b33, 0x0000, 0x0000, 0x2011, // 0x64: CMP
    0x2022, 0x2033, 0x0000, 0x0000, 0x0000, 0x0000, 0x0000, 0x0000, 0x0000, 0x0000, 0x0000, 0x1007, // 0x70: jumps, CALL, RET
    0x1007, 0x1007, 0x1007, 0x1007, 0x1007, 0x1007, 0x1007, 0x1007, 0x1007, 0x0000, 0x0000, 0x0000,
    0x0000, 0x0000, 0x0000, 0x20d1, // 0x80: ADD of F and D
    0x20e2, 0x0000, 0x0000, 0x3911, 0x3a22, 0x0000, 0x0000, 0x20d1, // 0x88: SUB of F and D
    0x20e2, 0x0000, 0x0000, 0x3911, 0x3a22, 0x0000, 0x0000, 0x20d1, // 0x90: MULT of F and D
    0x20e2, 0x0000, 0x0000, 0x3911, 0x3a22, 0x0000, 0x0000, 0x20d1, // 0x98: DIV of F and D
    0x20e2, 0x0000, 0x0000, 0x3911, 0x3a22, 0x0000, 0x0000, 0x2091, // 0xA0: MOVE of F and D
    0x20a2, 0x0000, 0x0000, 0x2011, // 0xA4: CMP of F and D
    0x2022,
];

// The table, made once and lent to each command.
pub fn table() -> Table {
    Table { rows: RULES }
}

// The rules of a byte that is no floating command.
pub fn rules_of(table: &Table, b: u32) -> Rules
    requires { b < 256 }
    ensures rules { rules_in result.number ≡ known_rules (known b) }
    ensures size { size_in result.number ≡ size_of (known_rules (known b)) }
{
    let number = if b < 0x80 {
        table.rows[b as usize] as u32
    } else {
        0
    };
    Rules { number }
}

// The rules of a byte from 0x80 on: a floating command's, all of its kind.
pub fn float_rules_of(table: &Table, b: u32) -> Rules
    requires { (0x80 ≤ b) × (b < 256) }
    ensures kind { kind_in result.number ≡ known_kind (known_float b) }
    ensures roles { roles_in result.number ≡ known_roles (known_float b) }
{
    let number = if b < 0xA6 {
        table.rows[b as usize] as u32
    } else {
        0
    };
    Rules { number }
}

// The operand count of a row.
pub fn count_in(rules: u32) -> u32
    ensures { result ≡ count_in rules }
{
    rules / 0x1000
}

// The rules without the next operand's; the count is of no account then.
pub fn rest_of(rules: Rules) -> Rules
    ensures { result.number ≡ rules.number / 16 }
{
    Rules {
        number: rules.number / 16,
    }
}

// The size in the lowest digit: the next operand's. An arm for each number, of which the compiler
// makes a table.
pub fn size_in(rules: u32) -> Size
    ensures { result ≡ size_in rules }
{
    match rules % 4 {
        0 => Size::W,
        1 => Size::B,
        2 => Size::H,
        _ => Size::W,
    }
}

// The kind in the lowest digit of a floating command's rules.
pub fn kind_in(rules: u32) -> Kind
    ensures { result ≡ kind_in rules }
{
    match rules % 4 {
        2 => Kind::D,
        _ => Kind::F,
    }
}

// The role in the lowest digit: the next operand's.
pub fn role_in(rules: u32) -> Role
    ensures { result ≡ role_in rules }
{
    match rules / 4 % 4 {
        0 => Role::Value,
        1 => Role::Address,
        2 => Role::Destination,
        _ => Role::Update,
    }
}

// Whether a role takes its operand's address.
pub fn addresses(role: Role) -> bool
    ensures { result ≡ addressed_by role }
{
    matches!(role, Role::Address)
}

// Whether a role takes its operand's value.
pub fn reads(role: Role) -> bool
    ensures { result ≡ read_by role }
{
    matches!(role, Role::Value | Role::Update)
}

// Whether a command's result goes to an operand of the role.
pub fn writes(role: Role) -> bool
    ensures { result ≡ written_to role }
{
    matches!(role, Role::Destination | Role::Update)
}

// 13: HALT or RESUME in user mode, or a system call in kernel mode.
pub fn forbidden(b: u32, status: u32) -> bool
    ensures { result ≡ forbidden_of b status }
{
    if status < 0x8000_0000 {
        return (b == 0) | (b == 5);
    }
    b == 3
}
