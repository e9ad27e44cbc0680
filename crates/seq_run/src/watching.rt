//! Who is told how far a run is.

ghost use Rattle.std.specs.Prelude.{List, [], ◌∷◌, Option, None};
ghost use Rattle.seq_run.specs.Telling.{Telling, Tells};

/// Is told how far a run is, as long as it goes on.
pub trait Watch {
    // What it was told, in turn, where that is known.
    ghost told: { Self → Option (List Telling) } = { λ _. None };

    /// So many items were taken so far, and so many bytes of the stream were read.
    fn tell(&mut self, items: u64, bytes: u64)
        ensures { Tells (told self.old) (told self.new) (record { items = items; bytes = bytes } ∷ []) };
}

/// A watch that does nothing with what it is told.
#[derive(Clone, Copy, Debug)]
pub struct Unwatched;

impl Watch for Unwatched {
    fn tell(&mut self, _items: u64, _bytes: u64) {}
}
