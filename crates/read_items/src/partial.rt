//! The numbers that the first bytes of an argument make.
ghost use Rattle.std.specs.Prelude.{◌<◌};
ghost use Rattle.read_items.specs.Room.{limit};

/// The bytes of an argument so far: how many come after the next one, and the number that they make.
#[derive(Clone, Copy)]
pub struct Partial {
    pub left: u8,
    pub value: u64,
    ghost few: { left < 8 },
    ghost fits: { value < limit left },
}
