//! What holds of the disks of the group's data servers.

ghost use Rattle.std.specs.Prelude.{List};
ghost use Rattle.trace_types.specs.declared.step.Step.{Step};
ghost use Rattle.group_rules.specs.Step.{first_group};
ghost use Rattle.group_safety.specs.Disks.{empty_disks};
ghost use Rattle.group_trace.specs.Run.{CanFollow};
ghost use Rattle.group_trace.specs.Scene.{first_scene};
ghost use Rattle.group_trace.specs.DiskCalls.{Spellings, measures_of};
ghost use Rattle.trace_laws.specs.DiskLaws.{CallsAreCounted, DiskRunIsRight, PicksAreParts, PicksKeep};
ghost use Rattle.trace_laws.specs.StoreLaws.{ServersReadExactly, StoresAreFuzzy, StoresStay};
ghost use Rattle.trace_laws.specs.Stores.{StoresOk};
ghost use Rattle.group_trace.specs.DiskRun.{empty_stores};

/// Every run from the first group, whatever the bytes of records and messages, and however many
/// were sent: its lines are a right trace, and each data server's disk is fuzzy between the LB of
/// its mark and some number of the book's updates, whatever steps are cut and whatever crashes
/// keep. That number is within the log where the server holds one, and within CP where it is
/// settled. The log of a data server over its disk gives each cell exactly, and every base is on
/// both disks.
pub fn every_disk_run()
    ensures right { (spellings : Spellings) (ss : List Step)
        → CanFollow (measures_of spellings) first_scene ss → DiskRunIsRight spellings ss }
{}

/// The calls that a stop counts are those that a step makes, and a crash by a pick leaves what a
/// crash may leave.
pub fn stops_count_calls()
    ensures counted { CallsAreCounted }
    ensures parts { PicksAreParts }
    ensures keep { PicksKeep }
{}

/// Each data server's disk is fuzzy between the LB of its mark and some number of the book's
/// updates, after every list of happenings and at each moment in between, whatever is applied,
/// flushed, saved, cut off and crashed. At first every disk is empty.
pub fn stores_stay_between()
    ensures first { StoresOk first_group empty_disks empty_stores }
    ensures kept { StoresStay }
    ensures fuzzy { StoresAreFuzzy }
{}

/// The log of a data server over its disk gives each cell exactly: after CP entries where it is
/// settled, and after all of them.
pub fn servers_read_exactly()
    ensures exact { ServersReadExactly }
{}
