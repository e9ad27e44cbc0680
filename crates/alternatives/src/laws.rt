//! Laws, whose functions do nothing: a part stands for one list of alternatives at most, which its summary describes.

ghost use Rattle.std.specs.Prelude.{◌≡◌, ℕ, List, Option, Some, slice_get};
ghost use Rattle.alternatives.specs.Splices.{Alternatives, HasAlternatives};
ghost use Rattle.alternatives.specs.Summaries.{AreSummaries, Describes};
ghost use Rattle.alternatives.specs.declared.Part.{Part};
ghost use Rattle.alternatives.specs.declared.summary.Summary.{Summary};

/// A part stands for one list of alternatives at most.
pub fn one_meaning()
    ensures { (parts : List Part) (n : ℕ) (mss nss : Alternatives) → HasAlternatives parts n mss → HasAlternatives parts n nss → mss ≡ nss }
{}

/// Where a part stands for something, it has a summary that describes it.
pub fn all_described()
    ensures { (parts : List Part) (summaries : List (Option Summary)) → AreSummaries parts summaries → (n : ℕ) (mss : Alternatives) → HasAlternatives parts n mss → (s : Summary) × (slice_get summaries n ≡ Some (Some s)) × Describes mss s }
{}
