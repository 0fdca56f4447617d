// The types of the table and of its rows.

ghost use Rattle.std.specs.Prelude.{◌≡◌, ◌<◌};
ghost use Rattle.rules.specs.Rules.{table_of};

// The operand rules of a command byte, as one number of four hexadecimal digits.
#[derive(Clone, Copy)]
pub struct Rules {
    pub number: u32,
    pub ghost small: { number < 65536 },
}

// The table of operand rules: its one value.
#[derive(Clone, Copy)]
pub struct Table {
    pub rows: [u16; 166],
    pub ghost right: { rows ≡ table_of },
}
