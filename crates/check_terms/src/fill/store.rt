//! What stores, and says that there is no room where memory is refused.

ghost use Rattle.std.specs.Prelude.{◌≡◌, ℕ, OnOk, nat_eq};
ghost use Rattle.std.specs.HashMap.{get};
ghost use Rattle.check_terms.specs.Fill.Making.{with_place};

use crate::NoRoom;
use std::collections::HashMap;

pub(crate) fn insert(
    places: &mut HashMap<u32, usize>,
    number: u32,
    place: usize,
) -> Result<(), NoRoom>
    ensures { OnOk result ((n : ℕ) → get nat_eq places.new n ≡ with_place (get nat_eq places.old) number place n) }
{
    match places.insert(number, place) {
        Ok(_) => Ok(()),
        Err(_) => Err(NoRoom),
    }
}
