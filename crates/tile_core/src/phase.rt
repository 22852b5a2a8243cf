//! What a tile does next.
ghost use Rattle.std.specs.Prelude.{◌≡◌};
ghost use Rattle.tile_core.specs.Steps.{is_over};

/// What the next step of a tile does.
#[derive(Clone, Copy, Debug, PartialEq, Eq)]
pub enum Phase {
    /// Takes the next attempt and computes the edges that it needs.
    Draw,
    /// Tries one needed edge.
    Lock,
    /// Reads the clocks of the needed edges, and brings the window's cells up to date from them.
    Refresh,
    /// Runs the event on the window.
    Behave,
    /// Marks and publishes the window, sets the clocks and notes the event.
    Write,
    /// Frees one edge of an event.
    Give,
    /// Frees one edge of an attempt that was given up.
    Back,
    /// Nothing: no attempt is left.
    Finished,
    /// Nothing: a clock has reached its end, and the tile stays as it is, with its edges.
    Worn,
}

impl Phase {
    /// Whether no attempt in hand goes on: the phase is `Draw`, `Finished` or `Worn`.
    pub fn is_over(self) -> bool
        ensures { result ≡ is_over self }
    {
        matches!(self, Phase::Draw | Phase::Finished | Phase::Worn)
    }
}
