//! What takes room, and says that there is none where too little is left.

ghost use Rattle.std.specs.Prelude.{◌≡◌, ◌+◌, OnOk};
ghost use Rattle.check_instances.specs.declared.room.Lack.TheVariants as Lacks;

use check_terms::NoRoom;
use rooms::Room;

/// What there is too little of.
#[derive(Clone, Copy)]
pub(crate) enum Lack {
    /// Memory was refused, or each number of 32 bits was taken.
    Memory,
    /// Too little of a room was left.
    Room,
}

impl From<NoRoom> for Lack {
    ghost from_gives = { λ _ e. e ≡ Lacks.Memory };

    fn from(_e: NoRoom) -> Lack {
        Lack::Memory
    }
}

impl From<Lack> for NoRoom {
    fn from(_e: Lack) -> NoRoom {
        NoRoom
    }
}

pub(crate) fn take(room: &mut Room, count: usize) -> Result<(), Lack>
    ensures { OnOk result (room.new + count ≡ room.old) }
{
    match room.take(count) {
        Ok(()) => Ok(()),
        Err(_) => Err(Lack::Room),
    }
}
