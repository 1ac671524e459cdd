//! Who tells a running server to stop.

ghost use Rattle.std.specs.Prelude.{Bool, List, Option, ◌∷◌, []};
ghost use Rattle.node_loop.specs.Orders.{Answered};

/// Who tells a running server to stop.
pub trait Orders {
    // What was answered so far, in order, where it is told.
    ghost told: { Self → Option (List Bool) };

    /// Whether the server is told to stop.
    fn is_told(&mut self) -> bool
        ensures { Answered (result ∷ []) (told self.old) (told self.new) };
}
