//! What each part of a flush leaves.

ghost use Rattle.applier.specs.Applied.{PartsFlushAtOnce};

/// Whatever part of a flush is made, no cell changes, and at each moment the mark on the disk is
/// the old one, or all cells are synced.
pub fn flush_laws()
    ensures at_once { PartsFlushAtOnce }
{}
