//! The place of each parameter in the list of parameters.

ghost use Rattle.std.specs.Prelude.{◌≡◌, ℕ, IfOk, OnOk, nat_eq};
ghost use Rattle.std.specs.HashMap.{get};
ghost use Rattle.check_terms.specs.Fill.Making.{slot_after};
ghost use Rattle.check_terms.specs.Fill.Slots.{ArePlacesOf};

use crate::NoRoom;
use crate::fill::store::insert;
use std::alloc::Global;
use std::collections::HashMap;

/// The place of each parameter in a list of parameters, of equal ones that of the first. They are made once, and serve each
/// template of a body with these parameters.
#[derive(Drop)]
pub struct Slots {
    pub(crate) places: HashMap<u32, usize>,
}

impl Slots {
    /// The places of these parameters, numbers of texts. It costs a hash of each. An error comes only where memory is refused.
    pub fn new(alloc: Global, parameters: &[u32]) -> Result<Slots, NoRoom>
        ensures { IfOk result (λ s. ArePlacesOf s parameters.now) }
    {
        let mut places = HashMap::new(alloc);
        for (place, parameter) in parameters.iter().enumerate() {
            add_slot(&mut places, *parameter, place)?;
        }
        Ok(Slots { places })
    }
}

fn add_slot(places: &mut HashMap<u32, usize>, parameter: u32, place: usize) -> Result<(), NoRoom>
    ensures { OnOk result ((n : ℕ) → get nat_eq places.new n ≡ slot_after (get nat_eq places.old) parameter place n) }
{
    if places.contains_key(&parameter) {
        return Ok(());
    }
    insert(places, parameter, place)
}
