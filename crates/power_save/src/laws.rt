//! What stays of a saved log.

ghost use Rattle.power_save.specs.Entries.{CrashesKeepEntries};
ghost use Rattle.power_save.specs.Saved.{CrashesKeep};

/// Whatever a crash leaves of a disk with a whole saved log, its cells hold the records, and with its
/// mark it has the entries that the group's machine says were saved.
pub fn crash_laws()
    ensures keep { CrashesKeep }
    ensures entries { CrashesKeepEntries }
{}
