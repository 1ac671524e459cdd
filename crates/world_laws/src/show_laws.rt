//! What servers show in every run.

ghost use Rattle.world_laws.specs.Shown.{NodesShowRightly};

/// In every scene to which steps lead, what the node of a host shows is what the rule says, and true
/// of the records of the book's updates.
pub fn nodes_show_rightly()
    ensures right { NodesShowRightly }
{}
