//! A law, whose function does nothing: what follows is the least set of facts that is closed under the implications.
ghost use Rattle.std.specs.Prelude.{◌≡◌, ℕ, List, Bool, true};
ghost use Rattle.graphs.specs.Implications.Implications.{Follows, IsClosed};
ghost use Rattle.graphs.specs.declared.implications.Implication.{Implication};

/// What follows is closed under the implications, and it is the least such set: each that is closed has all that follows.
pub fn least_closed()
    ensures least { (facts : ℕ) (is : List Implication) (holds : ℕ → Bool) → IsClosed facts is (λ x. holds x ≡ true) → (x : ℕ) → Follows facts is x → holds x ≡ true }
    ensures closed { (facts : ℕ) (is : List Implication) → IsClosed facts is (Follows facts is) }
{}
