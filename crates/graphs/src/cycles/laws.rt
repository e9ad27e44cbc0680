//! A law, whose function does nothing: where there are ranks that go down along each edge, there is no cycle.
ghost use Rattle.std.specs.Prelude.{◌≡◌, ℕ, List};
ghost use Rattle.graphs.specs.Cycles.Graph.{AreRanks, LeadsOn};
ghost use Rattle.graphs.specs.declared.cycles.Edge.{Edge};

/// Where there are ranks that go down along each edge, no node leads back to itself.
pub fn ranks_or_cycles()
    ensures { (nodes : ℕ) (edges : List Edge) (ranks : List ℕ) → AreRanks nodes edges ranks → (i : ℕ) → LeadsOn nodes edges i i → ⊥ }
{}
