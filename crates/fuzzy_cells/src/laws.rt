//! What holds of fuzzy cells, and of disks whose cells are fuzzy.

ghost use Rattle.fuzzy_cells.specs.Laws.{AlikeCellsStand, AppliesOn, GivesExactly, EachMomentIsBetween, LeftIsBetween, IsWider, IsProlonged};
ghost use Rattle.fuzzy_cells.specs.DiskLaws.{NewDisksAreBetween, AppliedIsBetween, CutIsBetween, SyncedIsBetween, CrashedIsBetween, SavedIsBetween, DiskIsProlonged};

/// Changes of records made of fuzzy cells leave them fuzzy; those of all records that the cells
/// may lack give each cell exactly, so the log over a fuzzy disk does; each moment on the way, and
/// what a crash leaves of several moments, is fuzzy. Cells that are alike stand for the same book.
pub fn fuzzy_laws()
    ensures applied { AppliesOn }
    ensures exact { GivesExactly }
    ensures moments { EachMomentIsBetween }
    ensures left { LeftIsBetween }
    ensures wider { IsWider }
    ensures prolonged { IsProlonged }
    ensures stand { AlikeCellsStand }
{}

/// A disk stays between its mark and how far it may be, whatever is applied, cut off, synced,
/// crashed or saved.
pub fn disk_laws()
    ensures first { NewDisksAreBetween }
    ensures applied { AppliedIsBetween }
    ensures cut_off { CutIsBetween }
    ensures synced { SyncedIsBetween }
    ensures crashed { CrashedIsBetween }
    ensures saved { SavedIsBetween }
    ensures prolonged { DiskIsProlonged }
{}
