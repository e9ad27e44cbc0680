//! A push to a list that answers `NoRoom` where memory is refused.

ghost use Rattle.std.specs.Prelude.{◌≡◌, ◌++◌, ◌∷◌, [], OnOk};

use crate::terms::NoRoom;

/// Adds the item at the end of the list.
///
/// # Errors
///
/// [`NoRoom`] where memory is refused.
pub fn push<T: Drop>(items: &mut Vec<T>, item: T) -> Result<(), NoRoom>
    ensures { OnOk result (items.new.items ≡ items.old.items ++ item ∷ []) }
{
    match items.push(item) {
        Ok(()) => Ok(()),
        Err(_) => Err(NoRoom),
    }
}
