//! What holds of the changes of records.

ghost use Rattle.record_changes.specs.Laws.{FrontsAreHistories, HistoriesAreAsLong, HistoriesGrow, HistoriesSetOnce, HistoriesStand, PlannedIsNext, SameBlocksSameChanges};

/// The changes of a record are a function of the entries up to its own: so the records of one
/// entry at all servers are equal, whoever made them. The cells after a history stand for its
/// entries, and each record sets a cell at once.
pub fn record_laws()
    ensures length { HistoriesAreAsLong }
    ensures fronts { FrontsAreHistories }
    ensures grow { HistoriesGrow }
    ensures stand { HistoriesStand }
    ensures once { HistoriesSetOnce }
    ensures same { SameBlocksSameChanges }
    ensures planned { PlannedIsNext }
{}
