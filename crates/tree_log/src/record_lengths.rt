//! What holds of the records of entries.

ghost use Rattle.tree_log.specs.RecordLaws.{HistoriesGrowByRecords, RecordsAreAlike, RecordsAreOfEntries};
ghost use Rattle.tree_log.specs.Sizes.{PlannedAreShort};

/// The record of an entry is a function of the entries up to its own, but for the view that it is
/// stamped with: so the records of one entry at all servers have the same changes, whoever made
/// them, and these are the next of the history. A record that is planned has at most 24,000 bytes,
/// where its call and the blocks and names that it puts are within the bounds of their types.
pub fn record_laws()
    ensures entry { RecordsAreOfEntries }
    ensures alike { RecordsAreAlike }
    ensures grow { HistoriesGrowByRecords }
    ensures short { PlannedAreShort }
{}
