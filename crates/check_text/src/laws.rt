//! Laws: functions that do nothing, whose contracts are for proofs.

ghost use Rattle.std.specs.Prelude.{◌≡◌, ◌≢◌, ℕ, ◌<◌, [], None, Some, false};
ghost use Rattle.check_text.specs.Codes.{all_codes, text_codes};
ghost use Rattle.check_text.specs.First.{IsFirst};
ghost use Rattle.check_text.specs.declared.fault.Fault.{Fault as Faults};
ghost use Rattle.cddl_language.specs.Environment.{definitions_of, is_in_prelude};
ghost use Rattle.cddl_language.specs.Faults.{HasBadController, HasBadRange, HasNotLiteral, HasNotUnwrappable, HasRecursion, HasTooManyInstances, IsAccepted, IsFaultAt, IsRefused, Specification, definitions, first_rule, number_of, root_of, rules};
ghost use Rattle.cddl_language.specs.Kinds.{is_group};
ghost use Rattle.cddl_language.specs.Literals.{Values};
ghost use Rattle.cddl_language.specs.MapFaults.{HasMapShape, HasNoKey, HasTooManyAlternatives};
ghost use Rattle.cddl_language.specs.Reading.{parameters_in};
ghost use Rattle.cddl_language.specs.Terms.{Text};
ghost use Rattle.cddl_language.specs.Live.Live.{IsClear};
ghost use Rattle.lists.specs.Least.{IsLeast};
ghost use Rattle.check_reading.specs.Survey.Survey.{IsSurvey};
ghost use Rattle.check_reading.specs.declared.survey.survey.Survey.{Survey as Surveys};
ghost use Rattle.tree_nodes.specs.Syntax.Syntax as S;
ghost use Rattle.cddl_token.specs.declared.Code.{Code};
ghost use Rattle.cddl_token.specs.declared.Code.TheVariants.{TooManyInstances, NotUnwrappable, Recursion, NotLiteral, BadRange, BadController, NoKey, MapShape, TooManyAlternatives};
ghost use Rattle.tree_nodes.specs.View.{view};
ghost use Rattle.tree_nodes.specs.declared.tree.Tree.{Tree};

use check_terms::Terms;
use check_terms::laws::equal_definitions;

/// The first fault of all codes is the one that is reported, and where there is none, the specification is accepted.
pub fn first_is_told()
    ensures accepted { (s : Specification) (worth : Values) → IsFirst (IsFaultAt s worth) all_codes None → IsAccepted s worth }
    ensures refused { (s : Specification) (worth : Values) (f : Faults) → IsFirst (IsFaultAt s worth) all_codes (Some f) → IsRefused s worth f.code f.at }
{}

/// The first fault of the whole text is the one that is reported, whatever the root reaches.
pub fn text_fault_is_told()
    ensures { (s : Specification) (worth : Values) (f : Faults) → IsFirst (IsFaultAt s worth) text_codes (Some f) → IsRefused s worth f.code f.at }
{}

/// Where the text has no fault, the first one of what the root reaches is reported, in the order of the codes; and where there is
/// none, the specification is accepted.
pub fn root_faults_are_told()
    ensures too_many { (s : Specification) (worth : Values) (root : Text) → root_of s ≡ Some root → IsFirst (IsFaultAt s worth) text_codes None → (at : ℕ) → IsLeast (HasTooManyInstances s root) (Some at) → IsRefused s worth TooManyInstances at }
    ensures unwrapping { (s : Specification) (worth : Values) (root : Text) → root_of s ≡ Some root → IsFirst (IsFaultAt s worth) text_codes None → IsLeast (HasTooManyInstances s root) None → (at : ℕ) → IsLeast (HasNotUnwrappable s root) (Some at) → IsRefused s worth NotUnwrappable at }
    ensures recursion { (s : Specification) (worth : Values) (root : Text) → root_of s ≡ Some root → IsFirst (IsFaultAt s worth) text_codes None → IsLeast (HasTooManyInstances s root) None → IsLeast (HasNotUnwrappable s root) None → (at : ℕ) → IsLeast (HasRecursion s root) (Some at) → IsRefused s worth Recursion at }
    ensures literal { (s : Specification) (worth : Values) (root : Text) → root_of s ≡ Some root → IsFirst (IsFaultAt s worth) text_codes None → IsLeast (HasTooManyInstances s root) None → IsLeast (HasNotUnwrappable s root) None → IsLeast (HasRecursion s root) None → (at : ℕ) → IsLeast (HasNotLiteral s worth root) (Some at) → IsRefused s worth NotLiteral at }
    ensures range { (s : Specification) (worth : Values) (root : Text) → root_of s ≡ Some root → IsFirst (IsFaultAt s worth) text_codes None → IsLeast (HasTooManyInstances s root) None → IsLeast (HasNotUnwrappable s root) None → IsLeast (HasRecursion s root) None → IsLeast (HasNotLiteral s worth root) None → (at : ℕ) → IsLeast (HasBadRange s worth root) (Some at) → IsRefused s worth BadRange at }
    ensures controller { (s : Specification) (worth : Values) (root : Text) → root_of s ≡ Some root → IsFirst (IsFaultAt s worth) text_codes None → IsLeast (HasTooManyInstances s root) None → IsLeast (HasNotUnwrappable s root) None → IsLeast (HasRecursion s root) None → IsLeast (HasNotLiteral s worth root) None → IsLeast (HasBadRange s worth root) None → (at : ℕ) → IsLeast (HasBadController s worth root) (Some at) → IsRefused s worth BadController at }
    ensures key { (s : Specification) (worth : Values) (root : Text) → root_of s ≡ Some root → IsFirst (IsFaultAt s worth) text_codes None → IsLeast (HasTooManyInstances s root) None → IsLeast (HasNotUnwrappable s root) None → IsLeast (HasRecursion s root) None → IsLeast (HasNotLiteral s worth root) None → IsLeast (HasBadRange s worth root) None → IsLeast (HasBadController s worth root) None → (at : ℕ) → IsLeast (HasNoKey (rules s) root) (Some at) → IsRefused s worth NoKey at }
    ensures shape { (s : Specification) (worth : Values) (root : Text) → root_of s ≡ Some root → IsFirst (IsFaultAt s worth) text_codes None → IsLeast (HasTooManyInstances s root) None → IsLeast (HasNotUnwrappable s root) None → IsLeast (HasRecursion s root) None → IsLeast (HasNotLiteral s worth root) None → IsLeast (HasBadRange s worth root) None → IsLeast (HasBadController s worth root) None → IsLeast (HasNoKey (rules s) root) None → (at : ℕ) → IsLeast (HasMapShape (rules s) root) (Some at) → IsRefused s worth MapShape at }
    ensures alternatives { (s : Specification) (worth : Values) (root : Text) → root_of s ≡ Some root → IsFirst (IsFaultAt s worth) text_codes None → IsLeast (HasTooManyInstances s root) None → IsLeast (HasNotUnwrappable s root) None → IsLeast (HasRecursion s root) None → IsLeast (HasNotLiteral s worth root) None → IsLeast (HasBadRange s worth root) None → IsLeast (HasBadController s worth root) None → IsLeast (HasNoKey (rules s) root) None → IsLeast (HasMapShape (rules s) root) None → (at : ℕ) → IsLeast (HasTooManyAlternatives (rules s) root) (Some at) → IsRefused s worth TooManyAlternatives at }
    ensures accepted { (s : Specification) (worth : Values) (root : Text) → root_of s ≡ Some root → IsFirst (IsFaultAt s worth) text_codes None → IsLeast (HasTooManyInstances s root) None → IsLeast (HasNotUnwrappable s root) None → IsLeast (HasRecursion s root) None → IsLeast (HasNotLiteral s worth root) None → IsLeast (HasBadRange s worth root) None → IsLeast (HasBadController s worth root) None → IsLeast (HasNoKey (rules s) root) None → IsLeast (HasMapShape (rules s) root) None → IsLeast (HasTooManyAlternatives (rules s) root) None → IsAccepted s worth }
{}

/// The codes of the whole text come before that of too many instances, and those of what the root reaches after it: where the
/// text has no fault and there are not too many instances, no other one stands.
pub fn codes_are_in_order()
    ensures text { (s : Specification) (worth : Values) (f : Faults) → IsFirst (IsFaultAt s worth) text_codes (Some f) → number_of f.code < number_of TooManyInstances }
    ensures reached { (s : Specification) (worth : Values) (root : Text) → root_of s ≡ Some root → IsFirst (IsFaultAt s worth) text_codes None → IsLeast (HasTooManyInstances s root) None → (code : Code) (at : ℕ) → IsFaultAt s worth code at → number_of TooManyInstances < number_of code }
{}

/// A text without a fault keeps all that is asked for its live sites to be reached.
pub fn text_is_clear(terms: &Terms<'_>)
    ensures { (s : Specification) (tree : Tree) (v : Surveys) (worth : Values) → s.tree ≡ view tree → IsSurvey terms.now tree v → IsFirst (IsFaultAt s worth) text_codes None → IsClear s }
{
    equal_definitions(terms);
}

/// A text without a fault has a root, which is defined, and is no group. Where a rule defines it, it has no parameters.
pub fn root_is_type()
    ensures present { (s : Specification) (worth : Values) → IsFirst (IsFaultAt s worth) text_codes None → (root : Text) × (root_of s ≡ Some root) }
    ensures defined { (s : Specification) (worth : Values) (root : Text) → root_of s ≡ Some root → IsFirst (IsFaultAt s worth) text_codes None → definitions_of (definitions s) root ≢ [] }
    ensures ruled { (s : Specification) (worth : Values) (root : Text) → root_of s ≡ Some root → IsFirst (IsFaultAt s worth) text_codes None → is_in_prelude root ≡ false → (r : S.Rule) × (first_rule (rules s) root ≡ Some r) }
    ensures plain { (s : Specification) (worth : Values) (root : Text) (r : S.Rule) → root_of s ≡ Some root → IsFirst (IsFaultAt s worth) text_codes None → first_rule (rules s) root ≡ Some r → parameters_in r ≡ [] }
    ensures is_type { (s : Specification) (worth : Values) (root : Text) → root_of s ≡ Some root → IsFirst (IsFaultAt s worth) text_codes None → is_group (definitions s) root ≡ false }
{}
