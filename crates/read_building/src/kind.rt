//! Major types.
ghost use Rattle.std.specs.Prelude.{◌≡◌, ◌<◌};
ghost use Rattle.read_building.specs.Stages.{IsMajor};

/// The major types of which each head has a whole argument: all but 7.
#[derive(Clone, Copy)]
pub enum Kind {
    Uint,
    Nint,
    Bytes,
    Text,
    Array,
    Map,
    Tag,
}

// The major type of this number, or none where it is 7.
#[inline(always)]
pub(crate) fn kind_of(major: u8) -> Option<Kind>
    requires { major < 8 }
    ensures { IsMajor result major }
{
    match major {
        0 => Some(Kind::Uint),
        1 => Some(Kind::Nint),
        2 => Some(Kind::Bytes),
        3 => Some(Kind::Text),
        4 => Some(Kind::Array),
        5 => Some(Kind::Map),
        6 => Some(Kind::Tag),
        _ => None,
    }
}
