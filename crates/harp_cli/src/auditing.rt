//! Auditing a folder.

ghost use Rattle.std.specs.Prelude.{◌≡◌, List, Some};
ghost use Rattle.audit_verdict.specs.Left.{IsLeftByPower};
ghost use Rattle.file_tree.specs.Book.{Entry};
ghost use Rattle.harp_store.specs.Disk.{Moments};
ghost use Rattle.harp_types.specs.Streams.{Rose};
ghost use Rattle.volatile_log.specs.Log.{LogValue};
ghost use Rattle.harp_cli.specs.Audit.{AuditEnds, VerdictEnds, WritesTree, exit_of_verdict};

use crate::serve::exit_of_store;
use audit_verdict::{Verdict, audit_store, verdict_laws, write_verdict};
use harp_store::Store;
use harp_types::{Sink, SinkFault};
use play_commands::Exit;
use std::alloc::Global;
use std::thread::Threads;

/// How a command ends that has written a verdict.
fn exit_of_verdict(verdict: &Verdict) -> Exit
    ensures { result ≡ exit_of_verdict verdict.now }
{
    match verdict {
        Verdict::Unsaved => Exit::SaysNo,
        Verdict::Unsound { .. } => Exit::SaysNo,
        Verdict::Sound { .. } => Exit::Done,
    }
}

/// Writes a verdict.
fn tell<K: Sink>(alloc: Global, verdict: Verdict, sink: &mut K) -> Exit
    ensures ends { VerdictEnds verdict (K.written sink.old) (K.written sink.new) result }
    ensures rose { result ≡ Exit.SinkFailed → Rose (K.faults sink.old) (K.faults sink.new) }
{
    let exit = exit_of_verdict(&verdict);
    match write_verdict(alloc, verdict, sink) {
        Ok(()) => exit,
        Err(SinkFault::Failed) => Exit::SinkFailed,
        Err(SinkFault::NoMemory) => Exit::NoMemory,
    }
}

/// Audits a disk, which is attached to a folder, and writes the verdict.
pub fn audit_folder<R: Threads + Sync, K: Sink, D: Store>(
    rt: &R,
    alloc: Global,
    folder: &str,
    sink: &mut K,
    disk: &mut D,
) -> Exit
    ensures ends { AuditEnds (D.told disk.old) (K.written sink.old) (K.written sink.new) result }
    ensures tree { (list : List Entry) (log : LogValue) (h : Moments) → D.told disk.old ≡ Some h
        → IsLeftByPower list log h
        → WritesTree list log (K.written sink.old) (K.written sink.new) result }
    ensures kept { D.told disk.new ≡ D.told disk.old }
    ensures disk_rose { result ≡ Exit.DiskFailed
        → Rose (D.faults disk.old) (D.faults disk.new) }
    ensures sink_rose { result ≡ Exit.SinkFailed
        → Rose (K.faults sink.old) (K.faults sink.new) }
{
    verdict_laws();
    if let Err(fault) = disk.attach(alloc, folder) {
        return exit_of_store(fault);
    }
    match audit_store(rt, alloc, disk) {
        Ok(verdict) => tell(alloc, verdict, sink),
        Err(fault) => exit_of_store(fault),
    }
}
