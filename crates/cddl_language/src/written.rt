//! What is written in a specification as a value stands in its text, wherever its root leads: in a body, or in an argument that
//! is put for a parameter. The definitions are in `specs/`. The functions here do nothing: their contracts are laws.
ghost use Rattle.std.specs.Prelude.{◌≡◌, Contains, List, Some};
ghost use Rattle.cddl_language.specs.Kinds.{opened, opens_group, opens_type};
ghost use Rattle.cddl_language.specs.Literals.{AreRight, Values};
ghost use Rattle.cddl_language.specs.Reach.{Reaches};
ghost use Rattle.cddl_language.specs.Reading.{definitions_in, parameters_in, rules_of, term_of2};
ghost use Rattle.cddl_language.specs.Sites.{IsReached, Site, an_operation};
ghost use Rattle.cddl_language.specs.Substitution.{fill, group_choices, type_choices};
ghost use Rattle.cddl_language.specs.Terms.{Entries, Group, Ref, Term, Text};
ghost use Rattle.tree_nodes.specs.Syntax.Syntax.{Cddl, Lexeme, Operator, Rule, Type2, flat};
ghost use Rattle.cddl_language.specs.Written.Sites.{site_lexemes};
ghost use Rattle.cddl_language.specs.Written.Written.{AllIn, AllInEntries, AllInGroup, AllInRef, IsMeant};

/// In an instance, in what it means and in what `~` of it unwraps, each written value is taken for what it stands for, where those
/// in the text are.
pub fn reached_values()
    ensures reference { (x : Cddl) (worth : Values) → AreRight x worth → (root : Text) (r : Ref) → Reaches (definitions_in (rules_of x)) root r → AllInRef (IsMeant worth) r }
    ensures types { (x : Cddl) (worth : Values) → AreRight x worth → (root : Text) (r : Ref) → Reaches (definitions_in (rules_of x)) root r → (t : Term) → Contains (type_choices (definitions_in (rules_of x)) r) t → AllIn (IsMeant worth) t }
    ensures alternatives { (x : Cddl) (worth : Values) → AreRight x worth → (root : Text) (r : Ref) → Reaches (definitions_in (rules_of x)) root r → (es : Entries) → Contains (group_choices (definitions_in (rules_of x)) r) es → AllInEntries (IsMeant worth) es }
    ensures opened_group { (x : Cddl) (worth : Values) → AreRight x worth → (root : Text) (r : Ref) → Reaches (definitions_in (rules_of x)) root r → (g : Group) → opened (definitions_in (rules_of x)) r ≡ Some (opens_group g) → AllInGroup (IsMeant worth) g }
    ensures content { (x : Cddl) (worth : Values) → AreRight x worth → (root : Text) (r : Ref) → Reaches (definitions_in (rules_of x)) root r → (t : Term) → opened (definitions_in (rules_of x)) r ≡ Some (opens_type t) → AllIn (IsMeant worth) t }
{}

/// The tokens of a site that is reached stand in the text.
pub fn site_tokens()
    ensures { (x : Cddl) (root : Text) (r : Rule) (xs : List Term) (p : Site) → IsReached (rules_of x) root r xs p → (l : Lexeme) → Contains (site_lexemes p) l → Contains (flat x) l }
{}

/// In an operand of a range or of a control, at a site that is reached, with the arguments of the instance in it, each written
/// value is taken for what it stands for, where those in the text are.
pub fn operand_values()
    ensures first { (x : Cddl) (worth : Values) → AreRight x worth → (root : Text) (r : Rule) (xs : List Term) (a b : Type2) (o : Operator) → IsReached (rules_of x) root r xs (an_operation a o b) → AllIn (IsMeant worth) (fill (parameters_in r) xs (term_of2 a)) }
    ensures last { (x : Cddl) (worth : Values) → AreRight x worth → (root : Text) (r : Rule) (xs : List Term) (a b : Type2) (o : Operator) → IsReached (rules_of x) root r xs (an_operation a o b) → AllIn (IsMeant worth) (fill (parameters_in r) xs (term_of2 b)) }
{}
