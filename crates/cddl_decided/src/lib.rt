//! That an accepted specification (RFC 8610) says one thing of each item: laws over its tree alone, in which no table is
//! named. The functions here do nothing: their contracts are the laws.
#![tactic(auto)]

ghost use Rattle.std.specs.Prelude.{◌≡◌, ◌<◌, ◌^◌, ℕ, List, Option, Some, map};
ghost use Rattle.cbor_data.specs.Value.{Value};
ghost use Rattle.cddl_decided.specs.Tables.{HasTable};
ghost use Rattle.cddl_decided.specs.Ways.{WaysEnd};
ghost use Rattle.cddl_language.specs.Faults.{IsAccepted, IsRefused, Specification, definitions, root_of, rules};
ghost use Rattle.cddl_language.specs.Free.{MayBeEmpty};
ghost use Rattle.cddl_language.specs.Language.{entry, language, reference, type_node};
ghost use Rattle.cddl_language.specs.Literals.{AreRight, Values};
ghost use Rattle.cddl_language.specs.Live.Live.{IsClear};
ghost use Rattle.cddl_language.specs.MapFaults.{IsSpliced, IsSplicedInto, closed_entry};
ghost use Rattle.cddl_language.specs.Reach.{Point, Reaches, ref_at};
ghost use Rattle.cddl_language.specs.Reading.{group_of, parameters_in};
ghost use Rattle.cddl_language.specs.Sites.{IsReached, a_map};
ghost use Rattle.cddl_language.specs.Substitution.{fill_group};
ghost use Rattle.cddl_language.specs.Terms.{Definition, Entries, Term, Text, alternatives, call, entry_list, no_terms};
ghost use Rattle.cddl_meaning.specs.Ranks.Decided.{IsDecided};
ghost use Rattle.cddl_meaning.specs.Ranks.Ranked.{AllMayBeEmpty};
ghost use Rattle.cddl_meaning.specs.Size.{size};
ghost use Rattle.cddl_token.specs.declared.Code.{Code};
ghost use Rattle.cddl_token.specs.declared.Token.{Token};
ghost use Rattle.tree_nodes.specs.Syntax.Syntax.{Group, GrpEnt, Rule};

use cddl_language::live::{reached_parts, reached_rules};
use cddl_language::written::{operand_values, reached_values};
use cddl_language::{accepted_has_no_cycle, accepted_root_is_type, more_names_change_nothing};
use cddl_literal::one_meaning;
use check_instances::closed::laws::meanings_are_reached;
use check_instances::openings::laws::{opened_is_reached, part_is_reached};

pub mod bounds;
pub mod tokens;

/// Entries may be empty, as free references are reported, where each of them may take no item by its form. It is so of any definitions.
pub fn empty_by_form()
    ensures { (worth : Values) (ds : List Definition) (es : Entries) → AllMayBeEmpty (language worth ds) (map entry (entry_list es)) → MayBeEmpty ds es }
{}

/// In an accepted specification each way ends that begins at a reference of an instance, by references that are each free in
/// what the one before means. So whatever is asked of an item, the item is taken or gone into after so many references.
pub fn ways_end()
    ensures { (s : Specification) (worth : Values) (root : Text) → IsAccepted s worth → root_of s ≡ Some root → (p : Point) → Reaches (definitions s) root (ref_at p) → WaysEnd (definitions s) p }
{
    accepted_has_no_cycle();
    meanings_are_reached();
    opened_is_reached();
    part_is_reached();
}

/// The root of an accepted specification says exactly one thing of an item whose size is below 2^64, at one place where it is a
/// no, and in one number of judgements.
pub fn accepted_is_decided()
    ensures { (s : Specification) (worth : Values) (root : Text) → IsAccepted s worth → root_of s ≡ Some root → (x : Value) → size x < 2 ^ 64 → IsDecided (language worth (definitions s)) (type_node worth (definitions s) (reference (call root no_terms))) 0 x }
{
    accepted_has_no_cycle();
    accepted_root_is_type();
    more_names_change_nothing();
    meanings_are_reached();
    opened_is_reached();
    part_is_reached();
}

/// No accepted specification is without a table: it can't be that no language of finitely many types and groups, each a number with
/// a rank, stands for it.
pub fn accepted_has_table()
    ensures { (s : Specification) (worth : Values) (root : Text) → IsAccepted s worth → root_of s ≡ Some root → (HasTable worth (definitions s) root → ⊥) → ⊥ }
{
    accepted_has_no_cycle();
    accepted_root_is_type();
    more_names_change_nothing();
    meanings_are_reached();
    opened_is_reached();
    part_is_reached();
}

/// What is reported for a specification does not depend on the table of values, where that is right for its text. What is accepted by one
/// is accepted by each; and where one has it refused, it can't be that not each has it refused for the same reason at the same byte.
pub fn one_outcome()
    ensures accepted { (s : Specification) (u w : Values) → AreRight s.tree u → AreRight s.tree w → IsAccepted s u → IsAccepted s w }
    ensures refused { (s : Specification) (u : Values) (c : Code) (p : ℕ) → AreRight s.tree u → IsRefused s u c p → (((w : Values) → AreRight s.tree w → IsRefused s w c p) → ⊥) → ⊥ }
{
    one_meaning();
    operand_values();
    reached_values();
    reached_parts();
    meanings_are_reached();
    opened_is_reached();
    part_is_reached();
}

/// Each entry that stands in a map by the text is spliced into the closed group of a map that the root reaches, where the text is
/// clear.
pub fn spliced_into_maps()
    ensures { (s : Specification) (root : Text) → IsClear s → (r : Rule) (xs : List Term) (q : Option Point) (e : GrpEnt) → IsSpliced (rules s) root r xs q e → (m : Rule) × (ys : List Term) × (t : Token) × (g : Group) × IsReached (rules s) root m ys (a_map t g) × IsSplicedInto (definitions s) (closed_entry r xs e) (alternatives (fill_group (parameters_in m) ys (group_of g))) }
{
    reached_rules();
}
