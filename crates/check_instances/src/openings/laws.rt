//! Laws: functions that do nothing, whose contracts are for proofs.

ghost use Rattle.std.specs.Prelude.{◌≡◌, ℕ, List, Some, slice_get};
ghost use Rattle.cddl_language.specs.Kinds.{names_group, opened, opens, opens_group, opens_type, part_of};
ghost use Rattle.cddl_language.specs.Reach.{Reaches, group_points, points};
ghost use Rattle.cddl_language.specs.Terms.{Definition, Group, Ref, Term, Text};
ghost use Rattle.check_terms.specs.Table.{Table};
ghost use Rattle.check_instances.specs.Closed.Closed.{AreReached};
ghost use Rattle.check_instances.specs.declared.openings.openings.Opening.{Opening};
ghost use Rattle.check_instances.specs.Openings.Openings.{AreOpenings, IsOpened};

/// All references that stand in what `~` of an instance unwraps are instances.
pub fn opened_is_reached()
    ensures group { (xs : List Definition) (root : Text) (r : Ref) (g : Group) → Reaches xs root r → opened xs r ≡ Some (opens_group g) → AreReached xs root (group_points g) }
    ensures content { (xs : List Definition) (root : Text) (r : Ref) (x : Term) → Reaches xs root r → opened xs r ≡ Some (opens_type x) → AreReached xs root (points x) }
{}

/// Where all references that stand in the type of an entry are instances, so is the one that it names or opens, and so are
/// those in the group that is opened.
pub fn part_is_reached()
    ensures named { (xs : List Definition) (root : Text) (x : Term) (r : Ref) → AreReached xs root (points x) → part_of xs x ≡ names_group r → Reaches xs root r }
    ensures opened { (xs : List Definition) (root : Text) (x : Term) (r : Ref) (g : Group) → AreReached xs root (points x) → part_of xs x ≡ opens r g → Reaches xs root r }
    ensures group { (xs : List Definition) (root : Text) (x : Term) (r : Ref) (g : Group) → AreReached xs root (points x) → part_of xs x ≡ opens r g → AreReached xs root (group_points g) }
{}

/// What `~` of the instance at a place unwraps is reported at this place.
pub fn opening_stands()
    ensures { (xs : List Definition) (t : Table) (refs : List Ref) (openings : List Opening) (k : ℕ) (r : Ref) → AreOpenings xs t refs openings → slice_get refs k ≡ Some r → (o : Opening) × (slice_get openings k ≡ Some o) × IsOpened t (opened xs r) o }
{}
