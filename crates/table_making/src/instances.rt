//! Numbers for all instances.

ghost use Rattle.std.specs.Prelude.{◌≡◌, ℕ, OnOk, Some, slice_get};
ghost use Rattle.cddl_language.specs.Terms.{Ref};
ghost use Rattle.table_making.specs.Basis.{IsSource, Sense};
ghost use Rattle.table_making.specs.Numbers.{AreNamed, Extends, keys_of};
ghost use Rattle.table_making.specs.Search.{HasNumber};

use crate::asked::{is_group, meaning_there};
use crate::laws::known_instances;
use crate::numbers::Numbers;
use crate::origin::{GroupOrigin, TypeOrigin};
use crate::source::Source;
use check_instances::closed::laws::meaning_at;
use check_terms::{NoRoom, Terms};

// Gives each instance a number, as a type or as a group.
pub(crate) fn number_instances(
    numbers: &mut Numbers,
    terms: &Terms<'_>,
    source: &Source<'_>,
) -> Result<(), NoRoom>
    ensures grows { OnOk result (Extends (keys_of numbers.old) (keys_of numbers.new)) }
    ensures named { OnOk result ((s : Sense) → IsSource s terms.now source.now → AreNamed s terms.now (keys_of numbers.old) → AreNamed s terms.now (keys_of numbers.new)) }
    ensures numbered { OnOk result ((s : Sense) (k : ℕ) (r : Ref) → IsSource s terms.now source.now → slice_get s.refs k ≡ Some r → HasNumber s terms.now (keys_of numbers.new) r) }
{
    meaning_at();
    let Ok(count) = u32::try_from(source.closed.meanings.len()) else {
        return Err(NoRoom);
    };
    for place in 0..count {
        number_instance(numbers, terms, source, place)?;
    }
    Ok(())
}

fn number_instance(
    numbers: &mut Numbers,
    terms: &Terms<'_>,
    source: &Source<'_>,
    place: u32,
) -> Result<(), NoRoom>
    ensures grows { OnOk result (Extends (keys_of numbers.old) (keys_of numbers.new)) }
    ensures named { OnOk result ((s : Sense) (r : Ref) → IsSource s terms.now source.now → slice_get s.refs place ≡ Some r → AreNamed s terms.now (keys_of numbers.old) → AreNamed s terms.now (keys_of numbers.new)) }
    ensures numbered { OnOk result ((s : Sense) (r : Ref) → IsSource s terms.now source.now → slice_get s.refs place ≡ Some r → HasNumber s terms.now (keys_of numbers.new) r) }
{
    meaning_at();
    known_instances();
    let Some(meaning) = meaning_there(source, place) else {
        return Err(NoRoom);
    };
    if is_group(terms, source, meaning.call) {
        numbers.number_group(GroupOrigin::Alternatives(meaning.group))?;
        return Ok(());
    }
    numbers.number_type(TypeOrigin::Instance(place))?;
    Ok(())
}
