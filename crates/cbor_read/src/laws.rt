//! What is reported for the rest of a stream is one thing, and there is one.

ghost use Rattle.std.specs.Prelude.{◌≡◌, ◌≤◌, ℕ, List};
ghost use Rattle.cbor_data.specs.Faults.{Bounds, IsFaultOf, last_offset};
ghost use Rattle.cbor_data.specs.Value.{AreBytes};
ghost use Rattle.cbor_data.specs.declared.FaultKind.{FaultKind};
ghost use Rattle.cbor_read.specs.Fronts.{IsFront};
ghost use Rattle.cbor_read.specs.declared.front.Front.{Front};

/// The bytes of a rest have one fault at most: one kind is reported, at one place. It does nothing.
pub fn one_fault()
    ensures { (l : Bounds) (o : ℕ) (b : List ℕ) (j k : FaultKind) (at to : ℕ) → AreBytes b → IsFaultOf l o b j at → IsFaultOf l o b k to → (j ≡ k) × (at ≡ to) }
{
    cbor_data::machine::one_fault();
}

/// The bytes of a rest, however many they are, are none, or begin with an item within the bounds, or have a fault. It does
/// nothing.
pub fn some_front()
    ensures { (l : Bounds) (o : ℕ) (b : List ℕ) → AreBytes b → o ≤ last_offset → (front : Front) × IsFront l o b front }
{}
