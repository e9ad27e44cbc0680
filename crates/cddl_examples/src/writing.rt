//! Writes an item.

ghost use Rattle.std.specs.Prelude.{◌≡◌, IfErr, IfOk, OnOk};
ghost use Rattle.std.specs.Io.KnownBytes.{Appends};
ghost use Rattle.cbor_data.specs.Preferred.{preferred};
ghost use Rattle.cbor_item.specs.declared.sound.Unsound.TheVariants as Flaw;
ghost use Rattle.item_nodes.specs.Counted.{device_of};
ghost use Rattle.item_nodes.specs.View.{view};
ghost use Rattle.seq_run.specs.Running.{change_of};
ghost use Rattle.cddl_examples.specs.Writing.{IsUnwritten, reading};
ghost use Rattle.cddl_examples.specs.declared.writing.Unwritten.TheVariants as Why;

use cddl::{Counted, Item, Sound, Unsound, WriteFault, write_item};
use std::alloc::{AllocError, Global};
use std::io::Write;
use thiserror::Error;

/// Why a reading is not written.
#[derive(Clone, Copy, Debug, PartialEq, Eq, Error)]
pub enum Unwritten {
    /// The device failed.
    #[error("{0}")]
    Device(WriteFault),
    /// An allocation was refused, or the item would be too long.
    #[error("{0}")]
    Item(Unsound),
}

impl From<AllocError> for Unwritten {
    ghost from_gives = { λ _ e. e ≡ Why.Item Flaw.Memory };

    fn from(_e: AllocError) -> Unwritten {
        Unwritten::Item(Unsound::Memory)
    }
}

impl From<Unsound> for Unwritten {
    ghost from_gives = { λ why e. e ≡ Why.Item why };

    fn from(why: Unsound) -> Unwritten {
        Unwritten::Item(why)
    }
}

impl From<WriteFault> for Unwritten {
    ghost from_gives = { λ fault e. e ≡ Why.Device fault };

    fn from(fault: WriteFault) -> Unwritten {
        Unwritten::Device(fault)
    }
}

/// Writes the array of a time and the name of a sensor, in preferred bytes.
pub fn write_reading<W: Write>(
    alloc: Global,
    time: u64,
    sensor: &str,
    out: &mut Counted<W>,
) -> Result<(), Unwritten>
    ensures written { OnOk result (Appends (W.contents (device_of out.old)) (W.contents (device_of out.new)) (preferred (reading time sensor.now))) }
    ensures unwritten { IfErr result (IsUnwritten (preferred (reading time sensor.now)) (change_of W.contents out.old out.new)) }
{
    let item = reading_of(alloc, time, sensor)?;
    let sound = Sound::try_new(alloc, item)?;
    write_item(&sound, out)?;
    Ok(())
}

// `[time, "sensor"]`
fn reading_of(alloc: Global, time: u64, sensor: &str) -> Result<Item, AllocError>
    ensures { IfOk result (λ item. view item ≡ reading time sensor.now) }
{
    let sensor = String::from_str(alloc, sensor)?;
    let members = vec![in alloc; Item::Uint(time), Item::Text(sensor)]?;
    Ok(Item::Array(members))
}
