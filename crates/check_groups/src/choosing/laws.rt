//! Laws: functions that do nothing, whose contracts are for proofs.

ghost use Rattle.std.specs.Prelude.{◌≡◌, ◌≤◌, ℕ, suc, Bool, List, Some, false, true};
ghost use Rattle.tree_nodes.specs.Syntax.Syntax as S;
ghost use Rattle.cddl_language.specs.Choices.{can_choose};
ghost use Rattle.cddl_language.specs.Kinds.{Opened, is_group, opened};
ghost use Rattle.cddl_language.specs.Reading.{definitions_in};
ghost use Rattle.cddl_language.specs.Terms.{Definition, Entries, Ref, name_of};
ghost use Rattle.check_groups.specs.Choosing.Nesting.{IsChosenEach};
ghost use Rattle.check_groups.specs.Choosing.Signs.{HaveEntries};

/// In each text `//=` adds an entry of a group and never a type.
pub fn texts_have_entries()
    ensures { (rs : List S.Rule) → HaveEntries (definitions_in rs) }
{}

/// Where `&` can choose from alternatives, it can choose from each group in them.
pub fn choices_nest()
    ensures { (xs : List Definition) (ess : List Entries) → can_choose xs ess ≡ true → IsChosenEach xs ess }
{}

/// A name whose `~` unwraps something is a type's.
pub fn opened_names_are_types()
    ensures { (xs : List Definition) → HaveEntries xs → (r : Ref) (o : Opened) → opened xs r ≡ Some o → is_group xs (name_of r) ≡ false }
{}

/// A family of sets of the numbers below a count that grows, and stays once it stayed, stays from that count on.
pub fn growing_sets_settle()
    ensures { (p : ℕ → ℕ → Bool) (count : ℕ) → ((k i : ℕ) → count ≤ i → p k i ≡ true → ⊥) → ((k i : ℕ) → p k i ≡ true → p (suc k) i ≡ true) → ((k : ℕ) → ((i : ℕ) → p (suc k) i ≡ true → p k i ≡ true) → (i : ℕ) → p (suc (suc k)) i ≡ true → p (suc k) i ≡ true) → (m : ℕ) → count ≤ m → (k i : ℕ) → p k i ≡ true → p m i ≡ true }
{}
