//! The arguments of heads (RFC 8949 section 3).
ghost use Rattle.std.specs.Prelude.{◌≡◌, ◌%◌, ◌<◌};
ghost use Rattle.cbor_data.specs.Machine.Machine.{info_of};
ghost use Rattle.read_items.specs.Arguments.{info_view, left_of, IsWith};

use crate::partial::Partial;

/// How many bytes an argument has that follows its initial byte.
#[derive(Clone, Copy)]
pub enum Size {
    One,
    Two,
    Four,
    Eight,
}

/// What the additional information of an initial byte says of the argument.
#[derive(Clone, Copy)]
pub enum Info {
    /// It is this.
    Given(u8),
    /// It follows.
    Follows(Size),
    /// There is none: the length is indefinite, or the byte is the break.
    Indefinite,
    /// Nothing: it is reserved.
    Reserved,
}

/// What one byte more makes of an argument.
#[derive(Clone, Copy)]
pub enum Argument {
    Part(Partial),
    Whole(u64),
}

/// What additional information, the low five bits of a head's first byte, says of its argument (RFC 8949 section 3).
pub fn info_of_byte(byte: u8) -> Info
    ensures { info_view result ≡ info_of (byte % 32) }
{
    match byte % 32 {
        24 => Info::Follows(Size::One),
        25 => Info::Follows(Size::Two),
        26 => Info::Follows(Size::Four),
        27 => Info::Follows(Size::Eight),
        28..=30 => Info::Reserved,
        31 => Info::Indefinite,
        info => Info::Given(info),
    }
}

impl Size {
    /// How many bytes come after the first one.
    pub fn left(self) -> u8
        ensures left { result ≡ left_of self }
        ensures few { result < 8 }
    {
        match self {
            Size::One => 0,
            Size::Two => 1,
            Size::Four => 3,
            Size::Eight => 7,
        }
    }
}

impl Partial {
    /// None of the bytes yet.
    pub fn new(size: Size) -> Partial
        ensures left { result.left ≡ left_of size }
        ensures value { result.value ≡ 0 }
    {
        Partial {
            left: size.left(),
            value: 0,
        }
    }

    /// One byte more, the most significant first.
    pub fn with(self, byte: u8) -> Argument
        ensures { IsWith self byte result }
    {
        let value = self.value * 256 + u64::from(byte);
        if self.left == 0 {
            Argument::Whole(value)
        } else {
            let left = self.left - 1;
            Argument::Part(Partial { left, value })
        }
    }
}
