//! Laws: functions that do nothing, whose contracts are for proofs.

ghost use Rattle.std.specs.Prelude.{◌≡◌, ℕ, List, Contains, Some, slice_get};
ghost use Rattle.cddl_language.specs.Terms as L;
ghost use Rattle.cddl_language.specs.Terms.{Text, Term, Ref, Group, Entries};
ghost use Rattle.cddl_language.specs.Substitution.{type_choices, group_choices};
ghost use Rattle.cddl_language.specs.Reach.{Reaches, points, group_points, entries_points};
ghost use Rattle.check_terms.specs.Table.{Table};
ghost use Rattle.check_terms.specs.Trees.{IsRef};
ghost use Rattle.check_instances.specs.Closed.Closed.{AreReached, IsClosed, IsMeaning};
ghost use Rattle.check_instances.specs.declared.closed.closed.Closed.{Closed};
ghost use Rattle.check_instances.specs.declared.closed.closed.Meaning.{Meaning};

use check_terms::Terms;
use check_terms::laws::equal_numbers;

/// All references that stand in what an instance means are instances.
pub fn meanings_are_reached()
    ensures types { (xs : List L.Definition) (root : Text) (r : Ref) (x : Term) → Reaches xs root r → Contains (type_choices xs r) x → AreReached xs root (points x) }
    ensures group { (xs : List L.Definition) (root : Text) (r : Ref) (g : Group) → Reaches xs root r → L.alternatives g ≡ group_choices xs r → AreReached xs root (group_points g) }
    ensures alternatives { (xs : List L.Definition) (root : Text) (r : Ref) (es : Entries) → Reaches xs root r → Contains (group_choices xs r) es → AreReached xs root (entries_points es) }
{}

/// Each instance has a meaning, at the same place.
pub fn meaning_at()
    ensures { (xs : List L.Definition) (root : Text) (refs : List Ref) (t : Table) (c : Closed) (k : ℕ) (r : Ref) → IsClosed xs root refs t c → slice_get refs k ≡ Some r → (m : Meaning) × (slice_get c.meanings.items k ≡ Some m) × IsMeaning xs t r m }
{}

/// Each row of an instance has the instance's place.
pub fn place_of(terms: &Terms<'_>)
    ensures { (xs : List L.Definition) (root : Text) (refs : List Ref) (c : Closed) (n : ℕ) (r : Ref) → IsClosed xs root refs terms.now c → IsRef terms.now n r → Reaches xs root r → (k : ℕ) × (slice_get c.places.items n ≡ Some (Some k)) × (slice_get refs k ≡ Some r) }
{
    equal_numbers(terms);
}
