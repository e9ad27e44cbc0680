//! Laws: functions that do nothing, whose contracts are for proofs.

ghost use Rattle.std.specs.Prelude.{◌≡◌, Contains, List, Some};
ghost use Rattle.cddl_language.specs.Maps.{Alternatives, alternatives_of};
ghost use Rattle.cddl_language.specs.Kinds.{opened, opens_group, opens_type};
ghost use Rattle.cddl_language.specs.Reach.{Reaches};
ghost use Rattle.cddl_language.specs.Substitution.{group_choices, type_choices};
ghost use Rattle.cddl_language.specs.Terms.{Entries, Group, Ref, Term, alternatives};
ghost use Rattle.check_terms.specs.Table.{Table};
ghost use Rattle.table_making.specs.Basis.{IsSource, Sense};
ghost use Rattle.table_making.specs.Origins.{AreKnown, AreKnownAlternatives, IsKnown, IsKnownGroup};
ghost use Rattle.table_making.specs.declared.source.Source.{Source as ASource};

use cddl_language::written::reached_values;
use check_instances::closed::laws::meanings_are_reached;
use check_instances::openings::laws::{opened_is_reached, part_is_reached};

// In what an instance means, and in what `~` of it unwraps, all references are instances, and each written value is taken for
// what it stands for.
pub(crate) fn known_instances()
    ensures types { (s : Sense) (t : Table) (src : ASource) → IsSource s t src → (r : Ref) → Reaches s.definitions s.root r → (x : Term) → Contains (type_choices s.definitions r) x → IsKnown s x }
    ensures alternatives { (s : Sense) (t : Table) (src : ASource) → IsSource s t src → (r : Ref) → Reaches s.definitions s.root r → AreKnown s (group_choices s.definitions r) }
    ensures group { (s : Sense) (t : Table) (src : ASource) → IsSource s t src → (r : Ref) → Reaches s.definitions s.root r → (g : Group) → alternatives g ≡ group_choices s.definitions r → IsKnownGroup s g }
    ensures opened_group { (s : Sense) (t : Table) (src : ASource) → IsSource s t src → (r : Ref) → Reaches s.definitions s.root r → (g : Group) → opened s.definitions r ≡ Some (opens_group g) → IsKnownGroup s g }
    ensures content { (s : Sense) (t : Table) (src : ASource) → IsSource s t src → (r : Ref) → Reaches s.definitions s.root r → (x : Term) → opened s.definitions r ≡ Some (opens_type x) → IsKnown s x }
{
    meanings_are_reached();
    opened_is_reached();
    reached_values();
}

// In the entries of the alternatives that known choices stand for in a map, all references are instances, and each written value
// is taken for what it stands for.
pub(crate) fn known_members()
    ensures { (s : Sense) (t : Table) (src : ASource) → IsSource s t src → (ess : List Entries) → AreKnown s ess → (mss : Alternatives) → alternatives_of s.definitions ess ≡ Some mss → AreKnownAlternatives s mss }
{
    known_instances();
    part_is_reached();
}
