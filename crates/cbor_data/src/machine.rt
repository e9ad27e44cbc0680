//! A machine that reads one item of CBOR byte by byte, for contracts and proofs: what it says of bytes is what the
//! written forms say (RFC 8949 section 3). The functions here do nothing: their contracts are the laws.
ghost use Rattle.std.specs.Prelude.{◌≡◌, ◌≢◌, ℕ, ◌+◌, ◌<◌, List, [], ◌∷◌, ◌++◌, length, Some, None, ◌⊎◌};
ghost use Rattle.cbor_data.specs.Value.{Value, Values, AreBytes};
ghost use Rattle.cbor_data.specs.Embedded.{Embeds, EmbedsAll};
ghost use Rattle.cbor_data.specs.Forms.{IsWellFormed, Begins, IsUnfinished};
ghost use Rattle.cbor_data.specs.Faults.{Bounds, BeginsWithin, IsKindOf, IsFaultOf};
ghost use Rattle.cbor_data.specs.declared.FaultKind.{FaultKind};
ghost use Rattle.cbor_data.specs.Machine.Machine.{State, item, done, step, steps, steps_in, refused_kind};

/// The machine is done exactly after a well-formed item.
pub fn done_is_whole()
    ensures sound { (b : List ℕ) → AreBytes b → steps (item []) b ≡ Some done → IsWellFormed b }
    ensures complete { (b : List ℕ) → IsWellFormed b → steps (item []) b ≡ Some done }
{}

/// Where it goes on some well-formed item begins so, and where it does not none does.
pub fn live_begins()
    ensures live { (b : List ℕ) (s : State) → AreBytes b → steps (item []) b ≡ Some s → Begins b }
    ensures refused { (b : List ℕ) → steps (item []) b ≡ None → Begins b → ⊥ }
{}

/// The same for the machine that opens no container inside `depth` open ones, and items that are no deeper.
pub fn live_begins_within()
    ensures live { (depth : ℕ) (b : List ℕ) (s : State) → AreBytes b → steps_in depth (item []) b ≡ Some s → BeginsWithin depth b }
    ensures refused { (depth : ℕ) (b : List ℕ) → steps_in depth (item []) b ≡ None → BeginsWithin depth b → ⊥ }
{}

/// A byte that the machine refuses is wrong in just the way that it says.
pub fn refused_is_of_its_kind()
    ensures { (b : List ℕ) (s : State) (x : ℕ) → AreBytes b → steps (item []) b ≡ Some s → s ≢ done → x < 256 →
        step s x ≡ None → IsKindOf b x (refused_kind s x) }
{}

/// The bytes of a rest have one fault at most: one kind, at one place.
pub fn one_fault()
    ensures { (l : Bounds) (o : ℕ) (b : List ℕ) (k k' : FaultKind) (at at' : ℕ) → AreBytes b →
        IsFaultOf l o b k at → IsFaultOf l o b k' at' → (k ≡ k') × (at ≡ at') }
{}

/// Bytes hold a list of valid items (RFC 8742), or one valid item, or they do not: either can be known.
pub fn held_or_not()
    ensures list { (b : List ℕ) → AreBytes b → ((xs : Values) × EmbedsAll b xs) ⊎ ((xs : Values) → EmbedsAll b xs → ⊥) }
    ensures single { (b : List ℕ) → AreBytes b → ((x : Value) × Embeds b x) ⊎ ((x : Value) → Embeds b x → ⊥) }
{}
