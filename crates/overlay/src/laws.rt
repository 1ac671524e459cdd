//! What the log over the cells of a disk gives.

ghost use Rattle.overlay.specs.Laws.{ReadsExactly};

/// Over cells that are each of some moment between two points of a history, a log that begins at or
/// before the one and goes as far as the other gives each cell exactly.
pub fn overlay_laws()
    ensures exact { ReadsExactly }
{}
