//! What the cells of a tree say of its directories.

ghost use Rattle.inode_dirs.specs.Laws.{SlotsArePlaced, TreesHoldSlots, HeldSlotsStand, EmptyHoldsNone, TreesTellSlots};
ghost use Rattle.inode_dirs.specs.Laws.{TreesHoldParents, TreesTellParents, StoredParentsAreComputed, AboveIsBelow};
ghost use Rattle.inode_dirs.specs.Laws.{CookiesFit, EntriesAreUnderParent, EmptyIsLast};
ghost use Rattle.inode_dirs.specs.Laws.{NoneIsNamed, FoundIsNamed, EntryGrows, FreedIsFree};
ghost use Rattle.inode_dirs.specs.Laws.{EntersFirstFree, ReplacesSlot, FreesSlot, KeepsSlots};

/// Slots: cells that stand for a tree hold those of each directory, and where they hold these, they
/// stand for them. What one change of a cell makes of a directory's slots.
pub fn slot_laws()
    ensures placed { SlotsArePlaced }
    ensures held { TreesHoldSlots }
    ensures stand { HeldSlotsStand }
    ensures empty { EmptyHoldsNone }
    ensures told { TreesTellSlots }
    ensures enters { EntersFirstFree }
    ensures replaces { ReplacesSlot }
    ensures frees { FreesSlot }
    ensures keeps { KeepsSlots }
{}

/// Parents: cells that stand for a tree hold the computed ones. In a sound tree the way up meets
/// each directory that another one is below.
pub fn parent_laws()
    ensures held { TreesHoldParents }
    ensures told { TreesTellParents }
    ensures stored { StoredParentsAreComputed }
    ensures above { AboveIsBelow }
{}

/// Searches and pages: what the definitions of a tree say of a list of slots.
pub fn entry_laws()
    ensures none { NoneIsNamed }
    ensures found { FoundIsNamed }
    ensures grows { EntryGrows }
    ensures freed { FreedIsFree }
    ensures cookies { CookiesFit }
    ensures entries { EntriesAreUnderParent }
    ensures empty { EmptyIsLast }
{}
