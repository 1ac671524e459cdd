//! What holds of disks whose cells are fuzzy.

ghost use Rattle.applier.specs.FuzzyLaws.{AppliedDisksAreFuzzy, CrashedDisksAreFuzzy, CutDisksAreFuzzy, DisksAreProlonged, GoneOverIsExact, ImagesAreFuzzy, MarkedDisksAreFuzzy, NewDisksAreFuzzy, SavedDisksAreFuzzy, SyncedDisksAreFuzzy};

/// A disk stays fuzzy whatever is applied, cut off in its middle, synced, marked or saved beside,
/// and so does what a crash leaves of it.
pub fn fuzzy_disk_laws()
    ensures first { NewDisksAreFuzzy }
    ensures applied { AppliedDisksAreFuzzy }
    ensures cut_off { CutDisksAreFuzzy }
    ensures exact { GoneOverIsExact }
    ensures synced { SyncedDisksAreFuzzy }
    ensures marked { MarkedDisksAreFuzzy }
    ensures images { ImagesAreFuzzy }
    ensures crashed { CrashedDisksAreFuzzy }
    ensures saved { SavedDisksAreFuzzy }
    ensures prolonged { DisksAreProlonged }
{}
