//! What the machine that builds says of bytes. These functions do nothing.
ghost use Rattle.std.specs.Prelude.{◌≡◌, ◌+◌, ◌≤◌, ℕ, List, length};
ghost use Rattle.cbor_data.specs.Value.{Value};
ghost use Rattle.cbor_data.specs.Forms.{Form, flat, IsOk, HasText, meaning};
ghost use Rattle.cbor_data.specs.Faults.{IsBadTextAt};
ghost use Rattle.cbor_data.specs.Machine.Machine as machine;
ghost use Rattle.read_building.specs.Building.{State, done};
ghost use Rattle.read_building.specs.Builds.{Builds, Notes};
ghost use Rattle.read_building.specs.Counts.{open_in, held};

/// What was built of a whole item's bytes is the meaning of each form that prints them, and each of its text chunks is UTF-8.
pub fn built()
    ensures { (d o : ℕ) (b : List ℕ) (x : Value) → Builds d o b (done x) → (f : Form) → IsOk f → b ≡ flat f → HasText f × (x ≡ meaning f) }
{}

/// The place that was noted is that of the first text chunk that is not UTF-8, of each form that prints the bytes.
pub fn first_bad_text()
    ensures { (d o : ℕ) (b : List ℕ) (place : ℕ) → Notes d o b machine.done place → (f : Form) → IsOk f → b ≡ flat f → (i : ℕ) × (place ≡ o + i) × IsBadTextAt f i }
{}

/// At most `d` containers are open, and the places built and the bytes of strings held are no more than the bytes.
pub fn counted()
    ensures few { (d o : ℕ) (b : List ℕ) (s : State) → Builds d o b s → open_in s ≤ d }
    ensures held { (d o : ℕ) (b : List ℕ) (s : State) → Builds d o b s → held s ≤ length b }
{}
