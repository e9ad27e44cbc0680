//! What types and groups of CDDL mean (RFC 8610), over any way to name them: the definitions are in `specs/`. The functions
//! here do nothing: their contracts are laws.
#![tactic(auto)]

pub mod ranks;

ghost use Rattle.std.specs.Prelude.{◌≡◌, ◌^◌, ℕ, Some, None, [], ◌∷◌};
ghost use Rattle.cbor_data.specs.Value.{Value, bytes, nint, uint};
ghost use Rattle.cbor_data.specs.Equivalence.{IsSame};
ghost use Rattle.cddl_meaning.specs.Forms.{Test, Language, bits_among, bits_asked, bits_set, passes};
ghost use Rattle.cddl_meaning.specs.Judges.{Yes, No, Says};
ghost use Rattle.cddl_meaning.specs.Literals.{IsPlainTest, HasPlainLiterals};

/// A test whose literal is no array, map or tag is passed by both of two items that are the same, or by neither.
pub fn same_test()
    ensures { (t : Test) (x y : Value) → IsPlainTest t → IsSame x y → passes t x ≡ passes t y }
{}

/// Where no literal is an array, a map or a tag, a type says yes to both of two items that are the same, or no to both,
/// wherever they stand. The places at which a no shows may differ.
pub fn same_answer<N, G>()
    ensures yes { (l : Language N G) → HasPlainLiterals l → (n : N) (p q w : ℕ) (x y : Value) → IsSame x y → Says l (l.type_at n) p x Yes w → (v : ℕ) × Says l (l.type_at n) q y Yes v }
    ensures no { (l : Language N G) → HasPlainLiterals l → (n : N) (p q far w : ℕ) (x y : Value) → IsSame x y → Says l (l.type_at n) p x (No far) w → (near v : ℕ) × Says l (l.type_at n) q y (No near) v }
{}

/// Which bits of an item are set: the bits 0 and 9 of `h'0102'`, the bits 0, 2 and 3 of 13, and bit 63 alone of the
/// greatest power of two. Negative numbers have none. Those that are no members weigh, too.
pub fn example_bits()
    ensures string { bits_set (bytes (1 ∷ 2 ∷ [])) ≡ Some (9 ∷ 0 ∷ []) }
    ensures number { bits_set (uint 13) ≡ Some (3 ∷ 2 ∷ 0 ∷ []) }
    ensures last { bits_set (uint (2 ^ 63)) ≡ Some (63 ∷ []) }
    ensures negative { bits_set (nint 0) ≡ None }
    ensures weight { bits_asked (bits_among []) (uint 13) ≡ 3 }
{}
