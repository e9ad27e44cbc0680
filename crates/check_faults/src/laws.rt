//! Laws: functions that do nothing, whose contracts are for proofs.

ghost use Rattle.std.specs.Prelude.{◌≡◌, ℕ, ◌<◌, List, [], Contains, Option, Some, slice_get};
ghost use Rattle.cddl_check.specs.Outcome.{specification};
ghost use Rattle.cddl_language.specs.Faults.{IsFaultAt, IsRefused, Specification, number_of};
ghost use Rattle.cddl_language.specs.Literals.{AreRight, Values};
ghost use Rattle.cddl_language.specs.Terms.{Text};
ghost use Rattle.cddl_token.specs.declared.Code.{Code};
ghost use Rattle.tree_nodes.specs.Syntax.Syntax.{Cddl};
ghost use Rattle.check_faults.specs.Listed.{AreListed, AreOfSpecification};
ghost use Rattle.check_faults.specs.declared.listing.Listed.{Listed};

/// The first of the faults that are listed is the one for which the text is refused: nothing stands in the list of a lower code,
/// and it is the first in the list of its own.
pub fn first_is_refused()
    ensures lower { (s : Specification) (worth : Values) (most : ℕ) (codes : List Code) (ls : List Listed) (code : Code) (at : ℕ) → AreListed (IsFaultAt s worth) most codes ls → IsRefused s worth code at → (l : Listed) → Contains ls l → number_of l.code < number_of code → l.offsets.items ≡ [] }
    ensures first { (s : Specification) (worth : Values) (most : ℕ) (codes : List Code) (ls : List Listed) (code : Code) (at : ℕ) → AreListed (IsFaultAt s worth) most codes ls → IsRefused s worth code at → 0 < most → (l : Listed) → Contains ls l → l.code ≡ code → slice_get l.offsets.items 0 ≡ Some at }
{}

/// The same of all faults of a specification, those of the whole text and those of what its root reaches.
pub fn first_of_all_is_refused()
    ensures lower { (x : Cddl) (root : Option Text) (worth : Values) (most : ℕ) (ls : List Listed) (code : Code) (at : ℕ) → AreOfSpecification x root most ls → AreRight x worth → IsRefused (specification x root) worth code at → (l : Listed) → Contains ls l → number_of l.code < number_of code → l.offsets.items ≡ [] }
    ensures first { (x : Cddl) (root : Option Text) (worth : Values) (most : ℕ) (ls : List Listed) (code : Code) (at : ℕ) → AreOfSpecification x root most ls → AreRight x worth → IsRefused (specification x root) worth code at → 0 < most → (l : Listed) → Contains ls l → l.code ≡ code → slice_get l.offsets.items 0 ≡ Some at }
{}
