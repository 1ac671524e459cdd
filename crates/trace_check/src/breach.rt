//! What a line may break, and what that says of the whole trace.

ghost use Rattle.std.specs.Prelude.{◌↔◌, ◌++◌, ◌∷◌, []};
ghost use Rattle.trace_types.specs.declared.line.Line.{Line as TraceLine};
ghost use Rattle.trace_claims.specs.Trace.{Trace};
ghost use Rattle.trace_check.specs.Breaches.{IsAccepted, Keeps, IsFirst};

/// What a line breaks. Of several the first counts, in the order in which they stand here.
#[derive(Clone, Copy, PartialEq, Eq)]
pub enum Breach {
    /// The reply of an entered call isn't the outcome on the tree of the entries before.
    Book,
    /// An entered line doesn't have the next number; or its update the next index, a stamp that
    /// doesn't fall and a number above its client's; or its read the index 0 and the stamp 0; or
    /// its call wasn't asked by its client, with its number and by its caller.
    Order,
    /// An answer isn't the one of an entered update; or of the read of its step's caller and call
    /// that was entered just before.
    Answer,
    /// An update was answered before its leader's partner acknowledged it.
    Ack,
    /// A read was answered without an unexpired promise of its leader's partner.
    Promise,
}

/// A trace is accepted exactly where none of its lines breaks anything.
pub fn breach_laws()
    ensures nothing { IsAccepted [] }
    ensures grown { (before : Trace) (line : TraceLine)
        → IsAccepted (before ++ line ∷ [])
        ↔ (IsAccepted before × ((b : Breach) → Keeps b before line)) }
    ensures broken { (before : Trace) (line : TraceLine) (b : Breach) → IsFirst b before line
        → ¬ (IsAccepted (before ++ line ∷ [])) }
{}
