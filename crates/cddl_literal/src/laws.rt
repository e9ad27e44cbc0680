//! Laws of the definitions, for whoever states more with them.

ghost use Rattle.std.specs.Prelude.{◌≡◌, ℕ, ◌+◌, List, slice_index, slice_range, length};
ghost use Rattle.cddl_literal.specs.Bytes.{HasAsciiEnds, IsAt};
ghost use Rattle.cddl_literal.specs.Escapes.{Escape as MeansAt};
ghost use Rattle.cddl_literal.specs.Literals.{IsText, IsBytes, IsBadBytes};
ghost use Rattle.cddl_literal.specs.Numbers.{Meaning, IsUint, IsNumber, IsTooLarge};
ghost use Rattle.cddl_literal.specs.Prefixed.{IsPrefixed, Opens, HoldsCoded};
ghost use Rattle.cddl_literal.specs.Strings.{IsQuoted, IsFurthest, HoldsCharacters, quote_byte};
ghost use Rattle.cddl_literal.specs.declared.Quote.{Quote};
ghost use Rattle.cddl_literal.specs.declared.Coding.{Coding};

/// A spelling has one meaning, and a string one end.
pub fn one_meaning()
    ensures uint { (s : List ℕ) (a b m n : ℕ) → IsUint s a b m → IsUint s a b n → n ≡ m }
    ensures number { (s : List ℕ) (a b : ℕ) (m n : Meaning) → IsNumber s a b m → IsNumber s a b n → n ≡ m }
    ensures not_too_large { (s : List ℕ) (a b : ℕ) (m : Meaning) → IsNumber s a b m → IsTooLarge s a b → ⊥ }
    ensures escape { (quote : Quote) (s : List ℕ) (i j k v w : ℕ) → MeansAt quote s i j v → MeansAt quote s i k w → (k ≡ j) × (w ≡ v) }
    ensures text { (s : List ℕ) (a b c : ℕ) (v w : List ℕ) → IsText s a b v → IsText s a c w → (c ≡ b) × (w ≡ v) }
    ensures byte_string { (s : List ℕ) (a b c : ℕ) (v w : List ℕ) → IsBytes s a b v → IsBytes s a c w → (c ≡ b) × (w ≡ v) }
    ensures bad_bytes { (s : List ℕ) (a b c : ℕ) → IsBadBytes s a b → IsBadBytes s a c → c ≡ b }
    ensures not_bad { (s : List ℕ) (a b c : ℕ) (v : List ℕ) → IsBytes s a b v → IsBadBytes s a c → ⊥ }
{}

/// A string closes where what it may hold stops.
pub fn closes_at_stop()
    ensures quoted { (quote : Quote) (s : List ℕ) (a b p : ℕ) (v : List ℕ) → IsQuoted quote s a b v → IsFurthest (HoldsCharacters quote s (a + 1)) p → (b ≡ p + 1) × (slice_index s p ≡ quote_byte quote) }
    ensures prefixed { (coding : Coding) (s : List ℕ) (a b e p : ℕ) (d : List ℕ) → IsPrefixed coding s a b d → Opens coding s a e → IsFurthest (HoldsCoded s e) p → (b ≡ p + 1) × IsAt "'" s p }
{}

/// What a part of a source spells, its bytes alone spell too, with the same meaning.
pub fn cut_out()
    ensures text { (s : List ℕ) (a b : ℕ) (v : List ℕ) → IsText s a b v → let part = slice_range s a b in IsText part 0 (length part) v }
    ensures byte_string { (s : List ℕ) (a b : ℕ) (v : List ℕ) → IsBytes s a b v → let part = slice_range s a b in IsBytes part 0 (length part) v }
    ensures number { (s : List ℕ) (a b : ℕ) (m : Meaning) → IsNumber s a b m → let part = slice_range s a b in IsNumber part 0 (length part) m }
{}

/// Literals are inside their source, and begin and end with ASCII.
pub fn ends_in_ascii()
    ensures text { (s : List ℕ) (a b : ℕ) (v : List ℕ) → IsText s a b v → HasAsciiEnds s a b }
    ensures byte_string { (s : List ℕ) (a b : ℕ) (v : List ℕ) → IsBytes s a b v → HasAsciiEnds s a b }
    ensures uint { (s : List ℕ) (a b n : ℕ) → IsUint s a b n → HasAsciiEnds s a b }
    ensures number { (s : List ℕ) (a b : ℕ) (m : Meaning) → IsNumber s a b m → HasAsciiEnds s a b }
{}
