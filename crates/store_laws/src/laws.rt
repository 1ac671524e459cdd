//! What holds of the disk that a store tells, beside that of a run.

ghost use Rattle.store_laws.specs.Laws.{AreNumbered, CallsAreMoments, CallsFollow, ChangesAreCalls, ChangesAreOfCalls, ChangesFollow, CrashesFollow, EqualChangesAre, FirstChangesAreCalls, MarksFollow, MomentsBeforeStand, NewDisksAre, PartsAreFirstChanges, PartsAreFirstFlushes, PartsAreFirstMarks, PartsAreFirstSaves, PutsAreSaved, ReadsAreAlike, RunsHaveFewBlocks, SavesAreCalls, SavesAreTold, StepsFollow, SyncsFollow};
ghost use Rattle.store_laws.specs.Steps.{StepsLeave, StepsMakeCalls};

/// The disk of a store is that of a run: a new one, and after changes of cells, a sync, a mark and
/// a crash by one pick. Reads give the same, but of the cells of saved logs, and no block has a
/// number behind the last one, where the run's disk has few blocks.
pub fn told_laws()
    ensures first { NewDisksAre }
    ensures reads { ReadsAreAlike }
    ensures numbered { AreNumbered }
    ensures changed { ChangesFollow }
    ensures equal { EqualChangesAre }
    ensures synced { SyncsFollow }
    ensures marked { MarksFollow }
    ensures crashed { CrashesFollow }
{}

/// So it is after the first calls of a store that are those of a run one for one, and after a whole
/// step of a run, one that a stop cuts, and a crash. The calls of a save are those of a run's.
pub fn call_laws()
    ensures first { CallsFollow }
    ensures step { StepsFollow }
    ensures moments { CallsAreMoments }
    ensures before { MomentsBeforeStand }
    ensures changes { ChangesAreCalls }
    ensures firsts { FirstChangesAreCalls }
    ensures one_for_one { ChangesAreOfCalls }
    ensures puts { PutsAreSaved }
    ensures saves { SavesAreCalls }
    ensures told { SavesAreTold }
{}

/// What a store tells after an error is what it tells after some first calls: of the changes of an
/// apply, of a flush, of a save, and of the writing of a mark.
pub fn part_laws()
    ensures applies { PartsAreFirstChanges }
    ensures flushes { PartsAreFirstFlushes }
    ensures saves { PartsAreFirstSaves }
    ensures marks { PartsAreFirstMarks }
{}

/// Which calls a step of a run makes, by what it begins with, and what is told after them. In every
/// run each server's disk has few blocks, after any first calls of a step too.
pub fn run_laws()
    ensures calls { StepsMakeCalls }
    ensures leave { StepsLeave }
    ensures few { RunsHaveFewBlocks }
{}
