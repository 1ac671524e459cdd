//! What the text of a verdict says of its tree.

ghost use Rattle.audit_verdict.specs.Laws.{ListingsAreTrees};

/// The text of a sound verdict is that of the tree whose objects it lists.
pub fn verdict_laws()
    ensures { ListingsAreTrees }
{}
