//! The grammar of CDDL over tokens (RFC 8610, appendix B), for contracts and proofs: its trees, the tokens that a tree
//! prints, and a machine that reads them. The functions here do nothing: their contracts are the laws.
ghost use Rattle.std.specs.Prelude.{◌≡◌, ◌≢◌, ℕ, max, ◌⊎◌, List, [], ◌∷◌, ◌++◌};
ghost use Rattle.cddl_token.specs.declared.Code.{Code};
ghost use Rattle.cddl_token.specs.declared.Kind.TheVariants.{End};
ghost use Rattle.cddl_token.specs.declared.Token.{Token};
ghost use Rattle.tree_nodes.specs.Syntax.Answers.{Prints, Begins, open_after, deepest, IsTreeOf, IsRefused};
ghost use Rattle.tree_nodes.specs.Syntax.Machine.{begin, done, stuck, run, open_in};
ghost use Rattle.tree_nodes.specs.Syntax.Syntax.{Lexeme, Cddl, flat, nesting};

/// Tokens have one tree at most.
pub fn one_tree()
    ensures { (ts : List Lexeme) (x y : Cddl) → Prints x ts → Prints y ts → y ≡ x }
{}

/// The machine is done exactly after the tokens of a tree, and with that tree.
pub fn makes_trees()
    ensures sound { (ts : List Lexeme) (x : Cddl) → run begin ts ≡ done x → Prints x ts }
    ensures complete { (ts : List Lexeme) (x : Cddl) → Prints x ts → run begin ts ≡ done x }
{}

/// Where it goes on, the tokens begin those of some tree (if there is any token at all).
pub fn goes_on()
    ensures { (t : Token) (ts : List Lexeme) → run begin ts ≢ stuck → Begins ts }
{}

/// Where it is stuck, they begin those of none.
pub fn is_stuck()
    ensures { (ts : List Lexeme) → run begin ts ≡ stuck → Begins ts → ⊥ }
{}

/// It knows how many opening tokens are open, and a tree nests as deep as its tokens.
pub fn is_balanced()
    ensures state { (ts : List Lexeme) → run begin ts ≢ stuck → open_in (run begin ts) ≡ open_after 0 ts }
    ensures closed { (x : Cddl) → open_after 0 (flat x) ≡ 0 }
    ensures joined { (ts us : List Lexeme) → deepest 0 (ts ++ us) ≡ max (deepest 0 ts) (deepest (open_after 0 ts) us) }
    ensures tree { (x : Cddl) → deepest 0 (flat x) ≡ nesting x }
{}

/// Tokens that end with the source are a specification or are refused.
pub fn some_answer()
    ensures { (front : List Token) (e : Token) → e.kind ≡ End → ((x : Cddl) × IsTreeOf x (front ++ e ∷ [])) ⊎ ((c : Code) × (p : ℕ) × IsRefused (front ++ e ∷ []) c p) }
{}

/// Tokens are a specification or are refused, never both, and refused for one reason at one byte.
pub fn one_answer()
    ensures apart { (ts : List Token) (x : Cddl) (c : Code) (p : ℕ) → IsTreeOf x ts → IsRefused ts c p → ⊥ }
    ensures refusal { (ts : List Token) (c d : Code) (p q : ℕ) → IsRefused ts c p → IsRefused ts d q → (d ≡ c) × (q ≡ p) }
{}
