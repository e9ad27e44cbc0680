//! What is wrong with a byte that cannot be where it is.
ghost use Rattle.std.specs.Prelude.{◌≡◌, ◌<◌, List};
ghost use Rattle.cbor_data.specs.Machine.Machine.{Frame, item, chunk, refused_kind};

use cbor_data::FaultKind;

/// What is wrong with an initial byte that no item has.
pub fn item_fault(byte: u8) -> FaultKind
    ensures { (around : List Frame) → refused_kind (item around) byte ≡ result }
{
    if byte % 32 != 31 {
        FaultKind::ReservedInfo
    } else if byte / 32 == 7 {
        FaultKind::BadBreak
    } else {
        FaultKind::BadIndefinite
    }
}

/// What is wrong with a byte that begins no chunk of a string of this major type.
pub fn chunk_fault(major: u8, byte: u8) -> FaultKind
    ensures { (around : List Frame) → refused_kind (chunk major around) byte ≡ result }
{
    if byte / 32 == major && byte % 32 != 31 {
        FaultKind::ReservedInfo
    } else {
        FaultKind::BadChunk
    }
}
