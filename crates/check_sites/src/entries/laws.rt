//! Laws: functions that do nothing, whose contracts are for proofs.

ghost use Rattle.std.specs.Prelude.{◌≡◌, Contains, List, Option, Some};
ghost use Rattle.cddl_language.specs.MapFaults.{IsSpliced};
ghost use Rattle.cddl_language.specs.Reach.{Point};
ghost use Rattle.cddl_language.specs.Terms.{Term, Text};
ghost use Rattle.tree_nodes.specs.Syntax.Syntax.{Group, GrpEnt, Rule, Types};
ghost use Rattle.check_sites.specs.Entries.Entries.{bare_types};
ghost use Rattle.check_sites.specs.Entries.Spliced.{AreSplicedIn, IsAmongSpliced, IsBareGroup};

/// What is spliced into a map is all that stands in a group that is spliced into one, with what is in its parentheses.
pub fn spliced_groups()
    ensures each { (rs : List Rule) (root : Text) (r : Rule) (xs : List Term) (q : Option Point) (es : List GrpEnt) (e : GrpEnt) → AreSplicedIn rs root r xs q es → Contains es e → IsSpliced rs root r xs q e }
    ensures every { (rs : List Rule) (root : Text) (r : Rule) (xs : List Term) (q : Option Point) (e : GrpEnt) → IsSpliced rs root r xs q e → IsAmongSpliced rs root r xs q e }
{}

/// The group of a map or an array that a type is, in any number of parentheses.
pub fn bare_groups()
    ensures found { (t : Types) (g : Group) → IsBareGroup t g → bare_types t ≡ Some g }
    ensures only { (t : Types) (g : Group) → bare_types t ≡ Some g → IsBareGroup t g }
{}
