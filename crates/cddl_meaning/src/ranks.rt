//! That types of CDDL always say something of an item, and with few questions open (RFC 8610), where no reference leads
//! back to itself before an item is taken or gone into. The functions here do nothing: their contracts are the laws.
ghost use Rattle.std.specs.Prelude.{◌≡◌, ◌+◌, ◌*◌, ◌<◌, ◌≤◌, ◌^◌, ℕ, List, length};
ghost use Rattle.cbor_data.specs.Value.{Value};
ghost use Rattle.cbor_data.specs.Forms.{Spells};
ghost use Rattle.cbor_data.specs.Preferred.{preferred};
ghost use Rattle.cddl_meaning.specs.Forms.{Node, Ref, Group, Language};
ghost use Rattle.cddl_meaning.specs.Judges.{Answer, Reply, Takes, Says, Does};
ghost use Rattle.cddl_meaning.specs.Moves.{Question, OfType, Pending, Move, Replies};
ghost use Rattle.cddl_meaning.specs.Costs.{HasLiterals};
ghost use Rattle.cddl_meaning.specs.Ranks.Cheaper.{IsCheaper};
ghost use Rattle.cddl_meaning.specs.Ranks.Decided.{IsDecided};
ghost use Rattle.cddl_meaning.specs.Ranks.Example.{example, example_rank};
ghost use Rattle.cddl_meaning.specs.Ranks.Ranked.{IsRanked, LeadsTo, MayBeEmpty, Name};
ghost use Rattle.cddl_meaning.specs.Ranks.Reached.{IsReached, one_for_empty_map};
ghost use Rattle.cddl_meaning.specs.Size.{size, size_of};

/// In a ranked language each type, in any form over its names, says something of each item, wherever that stands; each
/// group does something with each list; and the moves reply to each question.
pub fn some_answer<N, G>()
    ensures of_type { (l : Language N G) (rank : Name N G → ℕ) (bound : ℕ) → IsRanked l rank bound → (n : Node N G) (p : ℕ) (x : Value) → (a : Answer) × (w : ℕ) × Says l n p x a w }
    ensures of_group { (l : Language N G) (rank : Name N G → ℕ) (bound : ℕ) → IsRanked l rank bound → (g : Group N G) (p q : ℕ) (xs : List Value) → (r : Reply) × (w : ℕ) × Does l g p q xs r w }
    ensures by_moves { (l : Language N G) (rank : Name N G → ℕ) (bound : ℕ) → IsRanked l rank bound → (q : Question N G) → (r : Reply) × (w : ℕ) × Replies l q r w }
{}

/// In a ranked language a type says exactly one thing of an item whose place and size are below 2^64 together, and in one
/// number of judgements.
pub fn decided<N, G>()
    ensures { (l : Language N G) (rank : Name N G → ℕ) (bound : ℕ) → IsRanked l rank bound → (n : Node N G) (p : ℕ) (x : Value) → p + size x < 2 ^ 64 → IsDecided l n p x }
{}

/// In a ranked language that knows its literal keys, what is counted of an item is no more than the weight, and the answer and
/// its place are those of the weight.
pub fn counts_no_more<N, G>()
    ensures { (l : Language N G) (rank : Name N G → ℕ) (bound : ℕ) → IsRanked l rank bound → HasLiterals l → (n : Node N G) (p : ℕ) (x : Value) → p + size x < 2 ^ 64 → IsCheaper l n p x }
{}

/// In a ranked language no more questions are ever open than there are ranks, 0 among them, times the size of what the
/// first one is asked about: for a type, times the length of the item's preferred bytes. There is one more only while an
/// alternative is asked of a map without pairs.
pub fn few_open<N, G>()
    ensures size { (l : Language N G) (rank : Name N G → ℕ) (bound : ℕ) → IsRanked l rank bound → (first : Question N G) (os : List (Pending N G)) (m : Move N G) → IsReached l first os m → length os ≤ (bound + 1) * size_of first + one_for_empty_map os }
    ensures bytes { (l : Language N G) (rank : Name N G → ℕ) (bound : ℕ) → IsRanked l rank bound → (n : N) (p : ℕ) (x : Value) (os : List (Pending N G)) (m : Move N G) → IsReached l (OfType n p x) os m → length os ≤ (bound + 1) * length (preferred x) + one_for_empty_map os }
{}

/// An item is no larger than its preferred bytes, and than its bytes in any spelling.
pub fn no_larger()
    ensures preferred { (x : Value) → size x ≤ length (preferred x) }
    ensures spelled { (x : Value) (b : List ℕ) → Spells x b → size x ≤ length b }
{}

/// A group that takes no item is one that may, in any language.
pub fn may_be_empty<N, G>()
    ensures { (l : Language N G) (g : Group N G) (p q next far w : ℕ) (xs left : List Value) → Does l g p q xs (Takes left next far) w → length left ≡ length xs → MayBeEmpty l g }
{}

/// In a ranked language no name leads back to itself. In another one may, and a type that refers to itself says nothing of
/// any item.
pub fn no_way_back<N, G>()
    ensures ranked { (l : Language N G) (rank : Name N G → ℕ) (bound : ℕ) → IsRanked l rank bound → (a : Name N G) → LeadsTo l a a → ⊥ }
    ensures itself { (l : Language N G) (n : N) (p w : ℕ) (x : Value) (a : Answer) → l.type_at n ≡ Ref n → Says l (l.type_at n) p x a w → ⊥ }
{}

/// A language may lead back to itself through items and be ranked: `a = [g]` and `g = (a, ? g)` are.
pub fn some_are_ranked()
    ensures { IsRanked example example_rank 2 }
{}
