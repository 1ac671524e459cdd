//! The top call.

ghost use Rattle.std.specs.Prelude.{◌≡◌, ◌≢◌, ◌⊎◌, ◌∷◌, [], ℕ, ◌<◌, ◌^◌, List, Some};
ghost use Rattle.accept_laws.specs.AcceptLaws.{HasShortLines};
ghost use Rattle.accept_laws.specs.PumpLaws.{PumpsLeaveNone};
ghost use Rattle.trace_laws.specs.DiskLaws.{DiskRunIsRight};
ghost use Rattle.group_trace.specs.DiskRun.{first_disk_scene};
ghost use Rattle.schedule_play.specs.Exit.{whole_exit};
ghost use Rattle.schedule_play.specs.Reading.{reading};
ghost use Rattle.schedule_play.specs.Trace.{group_left, trace_of};
ghost use Rattle.group_trace.specs.Run.{AreTaken};
ghost use Rattle.group_trace.specs.Scene.{first_scene};
ghost use Rattle.world.specs.World.{IsWorld};
ghost use Rattle.audit.specs.Laws.{WellCellsStandForOne};
ghost use Rattle.audit_verdict.specs.Left.{IsLeftByPower};
ghost use Rattle.file_tree.specs.Book.{Entry};
ghost use Rattle.harp_store.specs.Disk.{Moments};
ghost use Rattle.volatile_log.specs.Log.{LogValue};
ghost use Rattle.harp_types.specs.Streams.{Rose};
ghost use Rattle.harp_types.specs.Trio.{value_of, with_value};
ghost use Rattle.harp_types.specs.declared.server.ServerId.{ServerId as Place};
ghost use Rattle.world_rules.specs.Spellings.{spellings};
ghost use Rattle.observe_laws.specs.Peeks.{IsObservedRightly};
ghost use Rattle.observe_laws.specs.Reading.{observed_reading};
ghost use Rattle.observed_text.specs.Grammar.{ExplainsObserved};
ghost use Rattle.observed_text.specs.Reading.{observed_meaning};
ghost use Rattle.node_loop.specs.Scene.{OneRose, all_places, around, each, only, start};
ghost use Rattle.running_laws.specs.Statement.{RunningServersAreTheGroup};
ghost use Rattle.running_laws.specs.Parts.{LivesArePartsOfHistories};
ghost use Rattle.schedule_text.specs.Grammar.{Explains};
ghost use Rattle.schedule_text.specs.Reading.{meaning_of};
ghost use Rattle.sweep.specs.Lines.{generated};
ghost use Rattle.sweep_player.specs.Counts.{summary_of_trace};
ghost use Rattle.sweep_player.specs.Reading.{summary_of_steps};
ghost use Rattle.sweep.specs.Texts.{schedule_text};
ghost use Rattle.trace_claims.specs.Linearizable.{IsLinearizable};
ghost use Rattle.trace_claims.specs.Right.{IsRight};
ghost use Rattle.trace_claims.specs.Trace.{AtEachPlace, entries, steps};
ghost use Rattle.trace_laws.specs.FirstParts.{FirstPartsAreRight};
ghost use Rattle.trace_laws.specs.Laws.{StandsInGroup};
ghost use Rattle.play_commands.specs.declared.exit.Exit.{Exit};
ghost use Rattle.harp_cli.specs.declared.loop_words.Loop.{Loop as Runs};
ghost use Rattle.play_commands.specs.Exit.{status_of};
ghost use Rattle.harp_cli.specs.Audit.{AuditEnds, WritesTree};
ghost use Rattle.harp_cli.specs.Check.{CheckEnds, StatusAgrees};
ghost use Rattle.harp_cli.specs.declared.door_words.Doorway.{Doorway as Way};
ghost use Rattle.play_commands.specs.Door.{DoorPlayed};
ghost use Rattle.harp_cli.specs.DoorServers.{DoorServes};
ghost use Rattle.harp_cli.specs.Gen.{GenEnds};
ghost use Rattle.play_commands.specs.Observe.{HasObserved};
ghost use Rattle.play_commands.specs.Play.{HasPlayed, exit_of_play, sizes};
ghost use Rattle.harp_cli.specs.Accepted.{WroteRightText};
ghost use Rattle.harp_cli.specs.Serve.{ServeEnds};
ghost use Rattle.harp_cli.specs.Sweep.{SweepEnds};
ghost use Rattle.harp_cli.specs.Words.{IsAudit, IsCheck, IsDoor, IsDoorPlay, IsForm, IsGen};
ghost use Rattle.harp_cli.specs.Words.{IsGroup, IsNode, IsObserve, IsPlay, IsSweep, Serves};
ghost use Rattle.harp_cli.specs.Words.{UsageEnds};

use crate::auditing::audit_folder;
use crate::check::check;
use crate::door_servers::door_to_servers;
use crate::generate::generate;
use crate::serve::{serve_group, serve_node};
use crate::sweeping::sweep;
use crate::texts::{linearizable_texts, traced_texts};
use crate::words::{Command, command_of, write_usage};
use accept_laws::{accepted_texts, pumped_lines};
use audit::audit_laws;
use harp_store::Store;
use harp_types::{Cred, Sink, Source, Trio};
use node_link::{Clock, Link};
use play_commands::{door_play, observe, observed_texts, play};
use running_laws::{histories_are_runs, lives};
use schedule_play::every_text;
use std::alloc::Global;
use std::thread::Threads;
use sweep_player::{GroupPlayer, swept_texts};
use world::World;

/// Does what the words ask for, and gives the exit status: 0 done, 1 a trace breaks something or a
/// folder has no sound tree, 2 the words are refused, 3 the source failed, 4 the sink failed, 5 a
/// line or a record is refused, 6 there was no memory, 7 a disk failed, 8 the link failed, 9 the turns
/// of a call were over, 10 the network of the servers in memory was full.
///
/// `play` plays the schedule of the source in the world, which is new, and writes its trace to the
/// sink. `observe` plays an observed schedule so, with an observer beside the world, and writes its
/// observed trace. `check` judges the trace of the source, and writes `yes`, or `no L CAUSE` where
/// line L is the first that breaks something, or `bad L CAUSE` where no trace is read at line L.
/// `gen` writes the schedule of a seed. `sweep` plays the schedules of many seeds, each in a world
/// of its own, and writes what their traces come to. On words of no form the usage text is written.
/// All but `play`, `observe` and `door play` leave the world.
///
/// `door play` opens a view in the world, which is new, and is its door: the source is a client's
/// side of a connection of ONC RPC, whose calls of NFS version 2 are made of the servers in memory
/// for one user and group, one after the other, and the sink is the other side. Each record's answer
/// is written before the next one is answered. Status 5 comes at a record that is too large, or cut
/// off, or one too many; status 10 where a call got no answer, of which nothing is written.
///
/// `door` is that of three servers, which it runs as `group` does, each of whose calls has the given
/// turns until it is answered; status 9 comes where they are over. The calls are those of the given
/// client, and their numbers go on from those of its earlier doors, as far as the clock does.
///
/// `node` runs a server over the disk of its place, which is attached to a folder, and `group` all
/// three over theirs, in the folders 0, 1 and 2 of one. Place s of the link has the given port plus
/// s. After the given turns they write `turns T taken N sent M`: the turns, and how many datagrams
/// were taken and sent.
///
/// `audit` attaches the disk of place 0 to a folder, and writes the verdict on it: `sound CP N` and
/// the lines of its N objects after CP updates, or `unsound M` and M lines `fault NUMBER FLAW`, or
/// `unsaved` where the disk alone has no tree. It changes nothing. All words but `node`, `group`,
/// `door` and `audit` leave disks, link and clock.
///
/// Want of memory ends each of them. Nothing is said of the bytes of a source or a sink that
/// doesn't tell them, nor of what a disk, a link or a clock doesn't tell.
pub fn harp<R: Threads + Sync, S: Source, K: Sink, L: Link, D: Store, C: Clock>(
    rt: &R,
    alloc: Global,
    words: &[String],
    world: &mut World,
    source: &mut S,
    sink: &mut K,
    link: &mut L,
    disks: &mut Trio<D>,
    clock: &mut C,
) -> u8
    requires { IsWorld first_disk_scene world.old }
    // Which status comes; and of a source that tells its bytes, what was written by then, what the
    // source has left, and which world is left.
    ensures play { IsPlay words.now → (exit : Exit) × (result ≡ status_of exit)
        × (exit ≢ Exit.RefusedWords)
        × ((text : List ℕ) → S.left source.old ≡ Some text
        → HasPlayed text (S.left source.new) (K.written sink.old) (K.written sink.new) world.new
        exit) }
    // Where neither the source nor the sink failed, the whole trace was written unless memory ran
    // out.
    ensures complete { IsPlay words.now → (text : List ℕ) → S.left source.old ≡ Some text
        → (Rose (S.faults source.old) (S.faults source.new) → ⊥)
        → (Rose (K.faults sink.old) (K.faults sink.new) → ⊥)
        → (result ≡ status_of (exit_of_play (whole_exit (reading sizes text).refused)))
        ⊎ (result ≡ 6) }
    // Where the whole trace was written, and no line of the schedule has more than 19,998 bytes, it
    // is a right text: `check` says yes of it.
    ensures accepted { IsPlay words.now → (text : List ℕ) → S.left source.old ≡ Some text
        → HasShortLines text → (result ≡ 0) ⊎ (result ≡ 5)
        → WroteRightText (K.written sink.old) (K.written sink.new) }
    ensures observe { IsObserve words.now → (exit : Exit) × (result ≡ status_of exit)
        × (exit ≢ Exit.RefusedWords)
        × ((text : List ℕ) → S.left source.old ≡ Some text
        → HasObserved text (S.left source.new) (K.written sink.old) (K.written sink.new) world.new
        exit) }
    // As of a play, the whole observed trace was written where neither source nor sink failed.
    ensures observe_complete { IsObserve words.now → (text : List ℕ) → S.left source.old ≡ Some text
        → (Rose (S.faults source.old) (S.faults source.new) → ⊥)
        → (Rose (K.faults sink.old) (K.faults sink.new) → ⊥)
        → (result ≡ status_of (exit_of_play (whole_exit (observed_reading sizes text).refused)))
        ⊎ (result ≡ 6) }
    ensures check { IsCheck words.now → (exit : Exit) × (result ≡ status_of exit)
        × (exit ≢ Exit.RefusedWords) × (world.new ≡ world.old)
        × ((text : List ℕ) → S.left source.old ≡ Some text
        → CheckEnds text (S.left source.new) (K.written sink.old) (K.written sink.new) exit) }
    ensures check_agrees { IsCheck words.now → (text : List ℕ) → S.left source.old ≡ Some text
        → StatusAgrees text result }
    ensures generate { (seed lines : ℕ) → IsGen seed lines words.now
        → (exit : Exit) × (result ≡ status_of exit)
        × GenEnds seed lines (K.written sink.old) (K.written sink.new) exit
        × (world.new ≡ world.old) × (source.new ≡ source.old) }
    ensures sweep { (seed runs lines : ℕ) → IsSweep seed runs lines words.now
        → (exit : Exit) × (result ≡ status_of exit)
        × SweepEnds (summary_of_steps sizes) seed runs lines
        (K.written sink.old) (K.written sink.new) exit
        × (world.new ≡ world.old) × (source.new ≡ source.old) }
    // What a sweep counts of the schedule of a seed is what a play writes of the text that `gen`
    // writes; and no line of that text is too long for `check` to accept the trace.
    ensures swept { (seed lines : ℕ) → lines < 2 ^ 32
        → summary_of_steps sizes (generated seed lines)
        ≡ summary_of_trace (trace_of sizes (schedule_text (generated seed lines))) }
    ensures short { (seed lines : ℕ) → lines < 2 ^ 32
        → HasShortLines (schedule_text (generated seed lines)) }
    ensures node { (place : Place) (runs : Runs) → IsNode place runs words.now
        → (exit : Exit) × (result ≡ status_of exit)
        × ServeEnds (place ∷ []) runs
        (around (only place (D.told (value_of disks.old place))) (L.told link.old)
        (C.told clock.old))
        (around (only place (D.told (value_of disks.new place))) (L.told link.new)
        (C.told clock.new))
        (K.written sink.old) (K.written sink.new) exit
        × (disks.new ≡ with_value disks.old place (value_of disks.new place))
        × (world.new ≡ world.old) × (source.new ≡ source.old) }
    ensures group { (runs : Runs) → IsGroup runs words.now
        → (exit : Exit) × (result ≡ status_of exit)
        × ServeEnds all_places runs
        (around (each D.told disks.old) (L.told link.old) (C.told clock.old))
        (around (each D.told disks.new) (L.told link.new) (C.told clock.new))
        (K.written sink.old) (K.written sink.new) exit
        × (world.new ≡ world.old) × (source.new ≡ source.old) }
    // The verdict on the disk of place 0, as far as it tells it, and what was written of it.
    ensures audit { IsAudit words.now → (exit : Exit) × (result ≡ status_of exit)
        × AuditEnds (D.told disks.old.zero) (K.written sink.old) (K.written sink.new) exit
        × (D.told disks.new.zero ≡ D.told disks.old.zero)
        × (disks.new ≡ record disks.old { zero = disks.new.zero })
        × (link.new ≡ link.old) × (clock.new ≡ clock.old)
        × (world.new ≡ world.old) × (source.new ≡ source.old) }
    // Cells of which nothing is found stand for a tree, where each is absent or of its own kind and
    // no file has bytes past its end: the verdict's text is that of the one that they stand for.
    ensures audit_one { WellCellsStandForOne }
    // Of a disk that a whole power failure left, it is the tree after the committed updates.
    ensures audit_left { IsAudit words.now → (list : List Entry) (log : LogValue) (h : Moments)
        → D.told disks.old.zero ≡ Some h → IsLeftByPower list log h
        → (exit : Exit) × (result ≡ status_of exit)
        × WritesTree list log (K.written sink.old) (K.written sink.new) exit }
    // Which calls a door made by then, how they were answered, and which world is left.
    ensures door_play { (uid gid : ℕ) → IsDoorPlay uid gid words.now
        → (exit : Exit) × (result ≡ status_of exit)
        × ((input : List ℕ) → S.left source.old ≡ Some input
        → DoorPlayed (record { uid = uid; gid = gid }) input (S.left source.new)
        (K.written sink.old) (K.written sink.new) world.new exit) }
    // So of a door to three servers; and how they were started, and what they run on by then.
    ensures door { (door : Way) → IsDoor door words.now
        → (exit : Exit) × (result ≡ status_of exit) × (world.new ≡ world.old)
        × ((input : List ℕ) → S.left source.old ≡ Some input
        → DoorServes door.caller input (S.left source.new)
        (K.written sink.old) (K.written sink.new)
        (start (each D.told disks.old) (L.told link.old) (C.told clock.old))
        (start (each D.told disks.new) (L.told link.new) (C.told clock.new)) exit) }
    ensures apart { (Serves words.now → ⊥) → (IsAudit words.now → ⊥)
        → (link.new ≡ link.old) × (disks.new ≡ disks.old) × (clock.new ≡ clock.old) }
    ensures usage { (IsForm words.now → ⊥)
        → (exit : Exit) × (result ≡ status_of exit)
        × UsageEnds (K.written sink.old) (K.written sink.new) exit
        × (world.new ≡ world.old) × (source.new ≡ source.old) }
    // The causes that hold of a source that tells no bytes too.
    ensures says_no { result ≡ 1 → IsCheck words.now ⊎ IsAudit words.now }
    ensures refused_words { result ≡ 2 → IsForm words.now → ⊥ }
    ensures source_failed { result ≡ 3 → Rose (S.faults source.old) (S.faults source.new) }
    ensures sink_failed { result ≡ 4 → Rose (K.faults sink.old) (K.faults sink.new) }
    ensures disk_failed { result ≡ 7
        → OneRose (each D.faults disks.old) (each D.faults disks.new) }
    ensures link_failed { result ≡ 8 → Rose (L.faults link.old) (L.faults link.new) }
    ensures spent { result ≡ 9 → (door : Way) × IsDoor door words.now }
    ensures net_full { result ≡ 10 → (uid : ℕ) × (gid : ℕ) × IsDoorPlay uid gid words.now }
    // What each line of a text means, by the grammar of steps; that no step that is read of one is
    // refused; and that behind a pump nothing is due among its servers.
    ensures meaning { (line : List ℕ) → Explains line (meaning_of line) }
    ensures taken { (text : List ℕ) → AreTaken sizes first_scene (reading sizes text).steps }
    ensures pumped { PumpsLeaveNone sizes }
    // What the trace of a text is: closed, faithful, acknowledged, answered at once, and the rest.
    ensures right { (text : List ℕ) → IsRight (trace_of sizes text) }
    // Each answered call of it took effect at one moment between an ask of it and its answer, and
    // in the order of these moments the calls are those of one tree.
    ensures linearizable { (text : List ℕ) → IsLinearizable (trace_of sizes text) }
    ensures events { (text : List ℕ) → steps (trace_of sizes text) ≡ (reading sizes text).steps }
    // What the group is that the steps of a text leave: its book, what stands in its later views,
    // and its disks.
    ensures book { (text : List ℕ)
        → entries (trace_of sizes text) ≡ (group_left sizes text).book }
    ensures views { (text : List ℕ)
        → AtEachPlace (StandsInGroup (group_left sizes text)) (trace_of sizes text) }
    ensures disks { (text : List ℕ) → DiskRunIsRight spellings (reading sizes text).steps }
    // What each first part of its lines is.
    ensures parts { (text : List ℕ) → FirstPartsAreRight sizes (reading sizes text).steps }
    // What each line of an observed schedule means, and what the observed trace of a text is: a
    // right one without what tells of the observer, each of whose answers is that to its call on
    // the tree after the updates that it tells, which are entered before and never get fewer.
    ensures observe_meaning { (line : List ℕ) → ExplainsObserved line (observed_meaning line) }
    ensures observed { (text : List ℕ) → IsObservedRightly sizes text }
    // What histories of servers that run as processes are, over a network and disks that fail: runs
    // of the group, each with one book; and what the servers of one call do is a part of one.
    ensures running { RunningServersAreTheGroup }
    ensures lives { LivesArePartsOfHistories }
{
    every_text();
    traced_texts();
    linearizable_texts();
    pumped_lines();
    observed_texts();
    accepted_texts();
    audit_laws();
    swept_texts();
    histories_are_runs();
    lives();
    match command_of(words) {
        Some(Command::Play) => play(alloc, world, source, sink).status(),
        Some(Command::Observe) => observe(alloc, world, source, sink).status(),
        Some(Command::Check) => check(alloc, source, sink).status(),
        Some(Command::Gen { seed, lines }) => generate(alloc, seed, lines, sink).status(),
        Some(Command::Sweep { seed, runs, lines }) => {
            sweep(rt, alloc, &GroupPlayer, seed, runs, lines, sink).status()
        }
        Some(Command::Node { place, runs }) => {
            let folder = words[3].as_str();
            let disk = disks.get_mut(place);
            serve_node(alloc, place, runs, folder, sink, link, disk, clock).status()
        }
        Some(Command::Group { runs }) => {
            let folder = words[2].as_str();
            serve_group(alloc, runs, folder, sink, link, disks, clock).status()
        }
        Some(Command::Audit) => {
            let folder = words[1].as_str();
            audit_folder(rt, alloc, folder, sink, &mut disks.zero).status()
        }
        Some(Command::DoorPlay { uid, gid }) => {
            door_play(alloc, Cred { uid, gid }, world, source, sink).status()
        }
        Some(Command::Door { door }) => {
            let folder = words[5].as_str();
            door_to_servers(alloc, door, folder, source, sink, link, disks, clock).status()
        }
        None => write_usage(sink).status(),
    }
}
