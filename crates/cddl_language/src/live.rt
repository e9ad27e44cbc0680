//! Which sites of a specification's text are reached: that depends on the text alone, once an instance is there. The
//! definitions are in `specs/`. The functions here do nothing: their contracts are laws.
ghost use Rattle.std.specs.Prelude.{◌≡◌, Contains, List, Some, false};
ghost use Rattle.cddl_token.specs.declared.Token.{Token};
ghost use Rattle.tree_nodes.specs.Syntax.Syntax.{Group, Operator, Rule, Ref as Reference, Type2};
ghost use Rattle.cddl_language.specs.Terms.{Ref, Term, Text, arguments_of};
ghost use Rattle.cddl_language.specs.Faults.{Specification, definitions, rules};
ghost use Rattle.cddl_language.specs.Environment.{definitions_of};
ghost use Rattle.cddl_language.specs.Reach.{IsPresent, Point, Reaches, body_points, group_points, points, ref_at};
ghost use Rattle.cddl_language.specs.Reading.{body_of, definition_of, group_of, name_in, parameters_in, ref_of, term_of2};
ghost use Rattle.cddl_language.specs.Substitution.{fill, fill_body, fill_group, fill_ref};
ghost use Rattle.cddl_language.specs.Sites.{IsInstance, IsReached, Site, a_choice_of, a_choice_of_name, a_map, an_operation, is_parameter, ref_at_site, ref_name};
ghost use Rattle.cddl_language.specs.Live.Live.{IsClear, IsLive, point_at};

/// A site is reached exactly in the instances of a rule in which it is live, where the text is clear.
pub fn reached_sites()
    ensures live { (rs : List Rule) (root : Text) (r : Rule) (xs : List Term) (p : Site) → IsReached rs root r xs p → IsLive rs r p }
    ensures instance { (rs : List Rule) (root : Text) (r : Rule) (xs : List Term) (p : Site) → IsReached rs root r xs p → (i : Ref) × (IsInstance rs root r i × (xs ≡ arguments_of i)) }
    ensures reached { (s : Specification) (root : Text) → IsClear s → (r : Rule) (i : Ref) (p : Site) → IsInstance (rules s) root r i → IsLive (rules s) r p → IsReached (rules s) root r (arguments_of i) p }
{}

/// What a site that is reached refers to is an instance, and its point is present, where the text is clear.
pub fn reached_references()
    ensures instance { (s : Specification) (root : Text) → IsClear s → (r : Rule) (xs : List Term) (q : Site) (f : Reference) → IsReached (rules s) root r xs q → ref_at_site q ≡ Some f → is_parameter r (ref_name f) ≡ false → Reaches (definitions s) root (fill_ref (parameters_in r) xs (ref_of f)) }
    ensures present { (s : Specification) (root : Text) → IsClear s → (r : Rule) (xs : List Term) (q : Site) (f : Reference) (p : Point) → IsReached (rules s) root r xs q → ref_at_site q ≡ Some f → is_parameter r (ref_name f) ≡ false → point_at q (fill_ref (parameters_in r) xs (ref_of f)) ≡ Some p → IsPresent (definitions s) root p }
{}

/// All references that stand in the group after `&` or of a map, or in an operand, at a site that is reached, are instances, where
/// the text is clear; so is the reference after `&`.
pub fn reached_parts()
    ensures reference { (s : Specification) (root : Text) → IsClear s → (r : Rule) (xs : List Term) (t : Token) (f : Reference) → IsReached (rules s) root r xs (a_choice_of_name t f) → Reaches (definitions s) root (fill_ref (parameters_in r) xs (ref_of f)) }
    ensures group { (s : Specification) (root : Text) → IsClear s → (r : Rule) (xs : List Term) (t : Token) (g : Group) (p : Point) → IsReached (rules s) root r xs (a_choice_of t g) → Contains (group_points (fill_group (parameters_in r) xs (group_of g))) p → Reaches (definitions s) root (ref_at p) }
    ensures first { (s : Specification) (root : Text) → IsClear s → (r : Rule) (xs : List Term) (x y : Type2) (o : Operator) (p : Point) → IsReached (rules s) root r xs (an_operation x o y) → Contains (points (fill (parameters_in r) xs (term_of2 x))) p → Reaches (definitions s) root (ref_at p) }
    ensures last { (s : Specification) (root : Text) → IsClear s → (r : Rule) (xs : List Term) (x y : Type2) (o : Operator) (p : Point) → IsReached (rules s) root r xs (an_operation x o y) → Contains (points (fill (parameters_in r) xs (term_of2 y))) p → Reaches (definitions s) root (ref_at p) }
    ensures map { (s : Specification) (root : Text) → IsClear s → (r : Rule) (xs : List Term) (t : Token) (g : Group) (p : Point) → IsReached (rules s) root r xs (a_map t g) → Contains (group_points (fill_group (parameters_in r) xs (group_of g))) p → Reaches (definitions s) root (ref_at p) }
{}

/// What a rule says is among what its name means, and all references that stand in its body, filled for an instance, are
/// instances, where the text is clear.
pub fn reached_rules()
    ensures defined { (s : Specification) → IsClear s → (r : Rule) → Contains (rules s) r → Contains (definitions_of (definitions s) (name_in r)) (definition_of r) }
    ensures body { (s : Specification) (root : Text) → IsClear s → (r : Rule) (i : Ref) (p : Point) → IsInstance (rules s) root r i → Contains (body_points (fill_body (parameters_in r) (arguments_of i) (body_of r))) p → Reaches (definitions s) root (ref_at p) }
{}
