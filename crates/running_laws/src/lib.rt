//! Servers that run as processes, and the runs of the group that they are: histories of processes,
//! what they owe, and the steps of a run that each event is.
//!
//! # What is proved
//!
//! A *history* (`IsHistory`) is the row of what happens at the places of three servers: lives that
//! begin and end, steps of them at readings of their clocks, and datagrams that are taken, of which
//! those from the port of a server were sent by it before. `RunningServersAreTheGroup` says that
//! each is a run of the group with disks, whose book is the history's:
//!
//! - `events_follow`: where a scene of a run follows a history (`Follows`), steps of the run lead
//!   on to a scene that follows the next events too, and their answers are those of the events
//!   (`follow`). Only a full net may refuse one of these steps: the clocks of the run are set
//!   before each event, its packets are what was sent, each disk is one that can be listed, and of
//!   what a crash may leave of it there is a pick that leaves it. A boot that is cut behind its
//!   write is a boot and a crash. A step that is cut behind its last call that changes the disk is
//!   a whole step and a crash: it answers nobody, and the messages that the rules give it carry no
//!   records, so they are written out, and never delivered. An apply that is cut amid its changes
//!   is a stop of the run; and another step that is cut is a crash. The save of a server that is told
//!   to stop is a power failure of the run, which a stop cuts where the save was cut. Each event adds to the book
//!   calls that were asked for by then, from peers that are known, and its answers are those of the
//!   book, to peers that asked under their numbers.
//! - `histories_are_runs`: new places follow the scene in which each server fell behind its first
//!   boot, so from new disks on a history is a run of the group (`runs`): its steps end in these
//!   servers and disks, its book is the history's (`HasBook`), and all that `disk_laws` says of a
//!   run holds.
//! - `lives`: what the servers of one call do, from their boots on, are events of a history at
//!   their places (`lives`): from the disks before, where they tell, to those after; with what the
//!   link told that they took and sent, at readings that the clock told. Where the call was cut off,
//!   its last event is one amid which the process is gone, or of which a front was sent. So it is
//!   with a server that stays up, whose save is the last event, whole or cut.
#![tactic(auto)]

ghost use Rattle.running_laws.specs.Follows.{EventsFollow};
ghost use Rattle.running_laws.specs.Parts.{LivesArePartsOfHistories};
ghost use Rattle.running_laws.specs.Statement.{RunningServersAreTheGroup};

/// From a scene that follows a history of servers that run, the run goes on as they do.
pub fn events_follow()
    ensures follow { EventsFollow }
{}

/// From new disks on, each history is a run of the group.
pub fn histories_are_runs()
    ensures runs { RunningServersAreTheGroup }
{}

/// What the servers of one call do is their part of a history.
pub fn lives()
    ensures lives { LivesArePartsOfHistories }
{}
