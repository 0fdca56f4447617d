ghost use Rattle.std.specs.Prelude.{◌<◌};

// The fields of an operand: its form, its register pair and its word.
#[derive(Clone, Copy)]
pub struct Fields {
    pub form: u32,
    pub x: u32,
    pub y: u32,
    pub z: u32,
    pub ghost x_small: { x < 16 },
    pub ghost y_small: { y < 16 },
}
