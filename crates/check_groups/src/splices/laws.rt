//! Laws: functions that do nothing, whose contracts are for proofs.

ghost use Rattle.std.specs.Prelude.{◌≡◌, ◌≤◌, ◌↔◌, ◌∷◌, [], ℕ, List, None, Option, Some, length};
ghost use Rattle.alternatives.specs.declared.Bounds.{Bounds};
ghost use Rattle.alternatives.specs.declared.Part.{Part};
ghost use Rattle.alternatives.specs.Splices.{Alternatives, HasAlternatives, occurring};
ghost use Rattle.cddl_language.specs.Maps as M;
ghost use Rattle.cddl_language.specs.Maps.{alternatives_of, map_alternatives};
ghost use Rattle.cddl_language.specs.Reach.{entry_points, group_points, most_instances};
ghost use Rattle.cddl_language.specs.StandsFor.{AreInstances};
ghost use Rattle.cddl_language.specs.Terms.{Definition, Entries, Entry, Group, Ref, Text, lone};
ghost use Rattle.check_terms.specs.Table.{Table};
ghost use Rattle.check_terms.specs.Trees.{IsEntry, IsGroup};
ghost use Rattle.check_instances.specs.Closed.Closed.{AreReached};
ghost use Rattle.check_groups.specs.Choosing.Signs.{HaveEntries};
ghost use Rattle.check_groups.specs.Splices.Maps.{AreAlternatives};
ghost use Rattle.check_groups.specs.Splices.Parts.{AreParts, HasBounds, IsOf};

use crate::choosing::laws::{growing_sets_settle, opened_names_are_types};
use cddl_language::more_names_change_nothing;
use check_instances::closed::laws::meanings_are_reached;
use check_instances::openings::laws::{opened_is_reached, part_is_reached};

/// The part of a group's row stands for alternatives exactly where the group of a map has some, and they are the same: where
/// the map has alternatives, the part stands for the same, and where the part stands for something, the map has the same.
pub fn parts_stand_for_maps()
    ensures some { (xs : List Definition) (root : Text) (t : Table) (parts : List Part) → AreParts xs root t parts → (n : ℕ) (g : Group) → IsGroup t n g → AreReached xs root (group_points g) → (mss : M.Alternatives) → map_alternatives xs g ≡ Some mss → (nss : Alternatives) × HasAlternatives parts n nss × AreAlternatives t mss nss }
    ensures only { (xs : List Definition) (root : Text) (refs : List Ref) (t : Table) (parts : List Part) → HaveEntries xs → AreInstances xs root refs → length refs ≤ most_instances → AreParts xs root t parts → (n : ℕ) (g : Group) → IsGroup t n g → AreReached xs root (group_points g) → (nss : Alternatives) → HasAlternatives parts n nss → (mss : M.Alternatives) × (map_alternatives xs g ≡ Some mss) × AreAlternatives t mss nss }
{
    parts_stand_for_choices();
}

/// The same of the choices of any group: one in parentheses, named, or opened.
pub fn parts_stand_for_choices()
    ensures some { (xs : List Definition) (root : Text) (t : Table) (parts : List Part) → AreParts xs root t parts → (n : ℕ) (ess : List Entries) → IsOf xs root t ess n → (mss : M.Alternatives) → alternatives_of xs ess ≡ Some mss → (nss : Alternatives) × HasAlternatives parts n nss × AreAlternatives t mss nss }
    ensures only { (xs : List Definition) (root : Text) (refs : List Ref) (t : Table) (parts : List Part) → HaveEntries xs → AreInstances xs root refs → length refs ≤ most_instances → AreParts xs root t parts → (n : ℕ) (ess : List Entries) → IsOf xs root t ess n → (nss : Alternatives) → HasAlternatives parts n nss → (mss : M.Alternatives) × (alternatives_of xs ess ≡ Some mss) × AreAlternatives t mss nss }
{
    growing_sets_settle();
    meanings_are_reached();
    more_names_change_nothing();
    opened_is_reached();
    opened_names_are_types();
    part_is_reached();
}

/// The same of an entry by itself.
pub fn parts_stand_for_entries()
    ensures some { (xs : List Definition) (root : Text) (t : Table) (parts : List Part) → AreParts xs root t parts → (n : ℕ) (e : Entry) → IsEntry t n e → AreReached xs root (entry_points e) → (mss : M.Alternatives) → alternatives_of xs (lone e ∷ []) ≡ Some mss → (nss : Alternatives) × HasAlternatives parts n nss × AreAlternatives t mss nss }
    ensures only { (xs : List Definition) (root : Text) (refs : List Ref) (t : Table) (parts : List Part) → HaveEntries xs → AreInstances xs root refs → length refs ≤ most_instances → AreParts xs root t parts → (n : ℕ) (e : Entry) → IsEntry t n e → AreReached xs root (entry_points e) → (nss : Alternatives) → HasAlternatives parts n nss → (mss : M.Alternatives) × (alternatives_of xs (lone e ∷ []) ≡ Some mss) × AreAlternatives t mss nss }
{
    growing_sets_settle();
    meanings_are_reached();
    more_names_change_nothing();
    opened_is_reached();
    opened_names_are_types();
    part_is_reached();
}

/// Where alternatives are the same, a group of the ones may occur so exactly where one of the others may.
pub fn groups_occur_alike()
    ensures { (t : Table) (o : Option Text) (b : Bounds) → HasBounds o b → (mss : M.Alternatives) (nss : Alternatives) → AreAlternatives t mss nss → (M.occurs o mss ≡ None) ↔ (occurring b.least b.most nss ≡ None) }
{}
