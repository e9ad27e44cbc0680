//! Definitions that go through so many names at most lose nothing by it: what is found through any number of names is found
//! through these, and is the same. The functions here do nothing: their contracts are laws.

ghost use Rattle.std.specs.Prelude.{◌≡◌, ℕ, List, [], ◌∷◌, None, Some, flat_map, true};
ghost use Rattle.cddl_language.specs.Choices.{chosen_in};
ghost use Rattle.cddl_language.specs.Controls.{Membership, of_bits};
ghost use Rattle.cddl_language.specs.Examples.{worth};
ghost use Rattle.cddl_language.specs.Faults.{Specification, definitions, rules};
ghost use Rattle.cddl_language.specs.Kinds.{Opened, is_group, is_group_in, opened, opened_in};
ghost use Rattle.cddl_language.specs.Literals.{Values, literal_in, literal_of};
ghost use Rattle.cddl_language.specs.Maps.{Alternatives, alternatives_in, alternatives_of};
ghost use Rattle.cddl_language.specs.Reach.{Reaches, entries_points, most_instances, points, points_in};
ghost use Rattle.cddl_language.specs.Reading.{parameters_in, term_of2};
ghost use Rattle.cddl_language.specs.Sites.{IsReached, an_operation};
ghost use Rattle.cddl_language.specs.Sizes.{Sizes, a_type, members_in, members_of, sizes_in, sizes_of};
ghost use Rattle.cddl_language.specs.Substitution.{fill};
ghost use Rattle.cddl_language.specs.Terms.{Definition, Entries, Ref, Term, Text};
ghost use Rattle.cddl_literal.specs.Numbers.{Meaning};
ghost use Rattle.tree_nodes.specs.Syntax.Syntax.{Operator, Rule, Type2};
ghost use Rattle.check_instances.specs.Closed.Closed.{AreReached};
ghost use Rattle.cddl_decided.specs.Bounds.Example.{after_a, both_ways};
ghost use Rattle.cddl_decided.specs.Bounds.Untold.{ChooseGroups, HasFewInstances, NamesNoGroupAsType};

use cddl_language::more_names_change_nothing;
use check_groups::choosing::laws::{opened_names_are_types, texts_have_entries};
use check_instances::closed::laws::meanings_are_reached;
use check_instances::openings::laws::{opened_is_reached, part_is_reached};

/// What `~` unwraps, and that a name is a group's, is found through as many names as the prelude and the text define, if it is
/// through any number. It is so of any definitions.
pub fn names_are_enough()
    ensures opened { (ds : List Definition) (n : ℕ) (r : Ref) (o : Opened) → opened_in n ds r ≡ Some o → opened ds r ≡ Some o }
    ensures group { (ds : List Definition) (n : ℕ) (t : Text) → is_group_in n ds t ≡ true → is_group ds t ≡ true }
{
    more_names_change_nothing();
}

/// Where a root leads to no more instances than may be (C10), what is asked of terms all of whose references are instances is found
/// through as many names as there may be instances, if it is through any number: the literal that a type is, its sizes, the types
/// from which `&` chooses, and the alternatives of a group in a map. So are the members of a controller, where no type stands after
/// `&` (C7).
pub fn instances_are_enough()
    ensures literal { (s : Specification) (root : Text) → HasFewInstances s root → (worth : Values) (t : Term) → AreReached (definitions s) root (points t) → (n : ℕ) (m : Meaning) → literal_in worth (definitions s) n t ≡ Some m → literal_of worth (definitions s) t ≡ Some m }
    ensures sizes { (s : Specification) (root : Text) → HasFewInstances s root → (worth : Values) (t : Term) → AreReached (definitions s) root (points t) → (n : ℕ) (rs : Sizes) → sizes_in worth (definitions s) n t ≡ Some rs → sizes_of worth (definitions s) t ≡ Some rs }
    ensures chosen { (s : Specification) (root : Text) → HasFewInstances s root → (ess : List Entries) → AreReached (definitions s) root (flat_map entries_points ess) → (n : ℕ) (ts : List Term) → chosen_in (definitions s) n ess ≡ Some ts → chosen_in (definitions s) most_instances ess ≡ Some ts }
    ensures alternatives { (s : Specification) (root : Text) → HasFewInstances s root → (ess : List Entries) → AreReached (definitions s) root (flat_map entries_points ess) → (n : ℕ) (mss : Alternatives) → alternatives_in (definitions s) n ess ≡ Some mss → alternatives_of (definitions s) ess ≡ Some mss }
    ensures members { (s : Specification) (root : Text) → HasFewInstances s root → NamesNoGroupAsType s → (m : Membership) (worth : Values) (t : Term) → AreReached (definitions s) root (points t) → ChooseGroups (definitions s) (points t) → (n : ℕ) (rs : Sizes) → members_in m worth (definitions s) n (a_type t) ≡ Some rs → members_of m worth (definitions s) t ≡ Some rs }
{
    more_names_change_nothing();
    meanings_are_reached();
    opened_is_reached();
    part_is_reached();
    texts_have_entries();
    opened_names_are_types();
}

/// Where no type stands after `&` in the text (C7), none does in what an instance means, nor in an operand of a range or a control
/// with the arguments of the instance in it, at a site that is reached: each name there is a group's.
pub fn choices_name_groups()
    ensures meaning { (s : Specification) → NamesNoGroupAsType s → (root : Text) (r : Ref) → Reaches (definitions s) root r → ChooseGroups (definitions s) (points_in (definitions s) r) }
    ensures first { (s : Specification) → NamesNoGroupAsType s → (root : Text) (r : Rule) (xs : List Term) (x y : Type2) (o : Operator) → IsReached (rules s) root r xs (an_operation x o y) → ChooseGroups (definitions s) (points (fill (parameters_in r) xs (term_of2 x))) }
    ensures last { (s : Specification) → NamesNoGroupAsType s → (root : Text) (r : Rule) (xs : List Term) (x y : Type2) (o : Operator) → IsReached (rules s) root r xs (an_operation x o y) → ChooseGroups (definitions s) (points (fill (parameters_in r) xs (term_of2 y))) }
{}

/// Why `members` asks that no type stands after `&`: the way from `&a` to these bits passes four names, each of two as a type and
/// as a group.
pub fn types_count_twice()
    ensures three { members_in of_bits worth both_ways 3 (a_type after_a) ≡ None }
    ensures four { members_in of_bits worth both_ways 4 (a_type after_a) ≡ Some ((5, 5) ∷ (5, 5) ∷ (5, 5) ∷ []) }
{}
