//! Laws: functions that do nothing, whose contracts are for proofs.

ghost use Rattle.std.specs.Prelude.{◌≡◌, ℕ, List, map};
ghost use Rattle.cddl_language.specs.Reach.{points, group_points, entries_points, entry_points, key_points, body_points};
ghost use Rattle.cddl_language.specs.Terms as L;
ghost use Rattle.cddl_language.specs.Terms.{Term, Ref, Group, Entries, Entry, Key};
ghost use Rattle.check_terms.specs.declared.definition.Body.{Body};
ghost use Rattle.check_terms.specs.Definitions.{IsBody};
ghost use Rattle.check_terms.specs.Table.{Grows, Table, Tree};
ghost use Rattle.check_terms.specs.Trees.{term_tree, group_tree, entries_tree, entry_tree, key_tree};
ghost use Rattle.check_terms.specs.Fill.Templates.{AreTrees};
ghost use Rattle.check_instances.specs.declared.patterns.Pattern.{Pattern};
ghost use Rattle.check_instances.specs.Bodies.{ArePatterns};
ghost use Rattle.check_instances.specs.Calls.{body_tree, calls, point_tree};

// What a table's growth keeps.
pub(crate) fn patterns_grow()
    ensures further { (a b c : Table) → Grows a b → Grows b c → Grows a c }
    ensures body { (old new : Table) → Grows old new → (b : Body) (x : L.Body) → IsBody old b x → IsBody new b x }
    ensures trees { (old new : Table) → Grows old new → (ns : List ℕ) (xs : List Tree) → AreTrees old ns xs → AreTrees new ns xs }
    ensures patterns { (old new : Table) → Grows old new → (ps : List Pattern) (ds : List L.Definition) → ArePatterns old ps ds → ArePatterns new ps ds }
{
    check_terms::laws::growing_keeps();
    check_terms::fill::laws::growing_keeps();
}

/// The references that stand in a tree are those that stand in what the tree is of, in order.
pub fn references_stand()
    ensures term { (t : Term) → calls (term_tree t) ≡ map point_tree (points t) }
    ensures group { (g : Group) → calls (group_tree g) ≡ map point_tree (group_points g) }
    ensures entries { (es : Entries) → calls (entries_tree es) ≡ map point_tree (entries_points es) }
    ensures entry { (e : Entry) → calls (entry_tree e) ≡ map point_tree (entry_points e) }
    ensures key { (k : Key) → calls (key_tree k) ≡ map point_tree (key_points k) }
    ensures body { (b : L.Body) → calls (body_tree b) ≡ map point_tree (body_points b) }
{}
