//! What items of CBOR are and how bytes spell them (RFC 8949), for contracts: the definitions are in `specs/`.
#![tactic(auto)]

pub mod machine;

ghost use Rattle.std.specs.Prelude.{◌≡◌, ◌≤◌, ◌*◌, ◌⊎◌, ◌↔◌, ℕ, List, ◌++◌, length};
ghost use Rattle.cbor_data.specs.Equivalence.{IsSame};
ghost use Rattle.cbor_data.specs.Deterministic.{ordered, deterministic, IsRising};
ghost use Rattle.cbor_data.specs.Validity.{IsValid};
ghost use Rattle.cbor_data.specs.Writable.{IsWritable};
ghost use Rattle.cbor_data.specs.Value.{Value, Values};
ghost use Rattle.cbor_data.specs.Forms.{Form, Spells, IsWellFormed};
ghost use Rattle.cbor_data.specs.Faults.{IsBadTextAt};
ghost use Rattle.cbor_data.specs.Preferred.{preferred};
ghost use Rattle.cbor_data.specs.Sound.{IsSound};
ghost use Rattle.cbor_data.specs.Embedded.{EmbedsAll};

/// How many bits a float has.
#[derive(Clone, Copy, Debug, PartialEq, Eq)]
pub enum Width {
    /// Half precision, 16 bits.
    W16,
    /// Single precision, 32 bits.
    W32,
    /// Double precision, 64 bits.
    W64,
}

/// What is wrong with the bytes of an item.
#[derive(Clone, Copy, Debug, PartialEq, Eq)]
pub enum FaultKind {
    /// Additional information 28 to 30 (RFC 8949 section 3).
    ReservedInfo,
    /// Additional information 31 on major type 0, 1 or 6 (RFC 8949 section 3.2).
    BadIndefinite,
    /// A break where none may be (RFC 8949 section 3.2.1).
    BadBreak,
    /// A string of indefinite length holds something else than definite strings of its major type
    /// (RFC 8949 section 3.2.3).
    BadChunk,
    /// A simple value below 32 in two bytes (RFC 8949 section 3.3).
    BadSimple,
    /// A container inside as many open ones as the limit allows.
    TooDeep,
    /// The item has as many bytes as the limit allows and goes on, or a byte has the stream offset 2^64 - 1.
    TooLong,
    /// The stream ends inside an item.
    Truncated,
    /// A text string, or a chunk of one, that is not UTF-8 (RFC 8949 section 3.1).
    BadText,
    /// A key of a map is the same as an earlier one, whatever the order of pairs in both (RFC 8949 sections 5.3.1 and 5.6).
    DuplicateKey,
}

/// Bytes spell at most one item, and no spelling begins another (RFC 8949 section 3).
pub fn one_item()
    ensures { (x y : Value) (a r b s : List ℕ) → Spells x a → Spells y b → a ++ r ≡ b ++ s → (a ≡ b) × (x ≡ y) }
{}

/// No well-formed bytes begin others: what a sequence begins with is one item at most (RFC 8742).
pub fn one_front()
    ensures { (a r b s : List ℕ) → IsWellFormed a → IsWellFormed b → a ++ r ≡ b ++ s → (a ≡ b) × (r ≡ s) }
{}

/// The first text of an item that is not UTF-8 begins at one byte (RFC 8949 section 3.1).
pub fn one_bad_text()
    ensures { (f : Form) (i j : ℕ) → IsBadTextAt f i → IsBadTextAt f j → i ≡ j }
{}

/// The preferred bytes of a sound item are a spelling of it (RFC 8949 section 4.1).
pub fn preferred_spells()
    ensures { (x : Value) → IsSound x → Spells x (preferred x) }
{}

/// No spelling of an item is shorter than a ninth of its preferred bytes: a head has one byte at least, and a preferred
/// one at most nine (RFC 8949 section 3).
pub fn preferred_length()
    ensures { (x : Value) (b : List ℕ) → Spells x b → length (preferred x) ≤ 9 * length b }
{}

/// Bytes hold one list of valid items at most (RFC 8742).
pub fn one_list()
    ensures { (b : List ℕ) (xs ys : Values) → EmbedsAll b xs → EmbedsAll b ys → xs ≡ ys }
{}

/// To be the same is an equivalence (RFC 8949 section 5.6.1).
pub fn equivalence()
    ensures itself { (x : Value) → IsSame x x }
    ensures back { (x y : Value) → IsSame x y → IsSame y x }
    ensures onward { (x y z : Value) → IsSame x y → IsSame y z → IsSame x z }
{}

/// Two items are the same or not.
pub fn same_or_not()
    ensures { (x y : Value) → IsSame x y ⊎ (IsSame x y → ⊥) }
{}

/// An item that is the same as a valid one is valid.
pub fn same_is_valid()
    ensures { (x y : Value) → IsSame x y → IsValid x → IsValid y }
{}

/// An item that is the same as a sound one is sound.
pub fn same_is_sound()
    ensures { (x y : Value) → IsSame x y → IsSound x → IsSound y }
{}

/// The deterministic bytes of an item spell the item in order, which is the same.
pub fn deterministic_spells()
    ensures spells { (x : Value) → IsWritable x → Spells (ordered x) (deterministic x) }
    ensures same { (x : Value) → IsSame x (ordered x) }
{}

/// The deterministic bytes of a sound item are read back as an item that is sound and the same, and that has these
/// deterministic bytes again.
pub fn deterministic_read_back()
    ensures some { (x : Value) → IsSound x → (y : Value) × Spells y (deterministic x) }
    ensures sound { (x y : Value) → IsSound x → Spells y (deterministic x) → IsSound y }
    ensures same { (x y : Value) → IsSound x → Spells y (deterministic x) → IsSame x y }
    ensures again { (x y : Value) → IsSound x → Spells y (deterministic x) → deterministic y ≡ deterministic x }
{}

/// An item has as many deterministic bytes as preferred ones.
pub fn deterministic_length()
    ensures { (x : Value) → length (deterministic x) ≡ length (preferred x) }
{}

/// Items that have the same deterministic bytes are the same.
pub fn same_by_deterministic()
    ensures { (x y : Value) → IsWritable x → IsWritable y → deterministic x ≡ deterministic y → IsSame x y }
{}

/// Items that are the same have the same deterministic bytes, if one of them is valid.
pub fn one_deterministic()
    ensures { (x y : Value) → IsSame x y → IsWritable y → IsValid y → deterministic x ≡ deterministic y }
{}

/// Sound items are the same exactly if their deterministic bytes are.
pub fn same_if_deterministic()
    ensures { (x y : Value) → IsSound x → IsSound y → (IsSame x y ↔ (deterministic x ≡ deterministic y)) }
{}

/// In the deterministic bytes of a valid item the keys of each map rise (RFC 8949 section 4.2.1), and of all items that are
/// the same as it only those in which they rise have these bytes as their preferred ones.
pub fn deterministic_rises()
    ensures rises { (x : Value) → IsWritable x → IsValid x → IsRising (ordered x) }
    ensures alone { (x y : Value) → IsSame x y → IsWritable y → IsValid y → IsRising x → preferred x ≡ deterministic y }
{}
