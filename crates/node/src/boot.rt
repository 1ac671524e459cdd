//! Booting a server from its disk.

ghost use Rattle.std.specs.Prelude.{◌≡◌, ◌⊎◌, ◌<◌, ◌≤◌, ◌^◌, [], List, ℕ, IfOk, None, OnErr, OnOk, Some, if◌then◌else◌};
ghost use Rattle.event_record.specs.declared.record.RecordFields.{RecordFields};
ghost use Rattle.file_tree.specs.Book.{Entry};
ghost use Rattle.group_rules.specs.Effects.{booted, rested};
ghost use Rattle.group_rules.specs.Limits.{is_log};
ghost use Rattle.group_rules.specs.Names.{place_of};
ghost use Rattle.group_rules.specs.State.{longest_of};
ghost use Rattle.harp_cells.specs.Effect.{Cells};
ghost use Rattle.harp_store.specs.Disk.{Moments, cells_told, reads};
ghost use Rattle.idle_log.specs.Boots.{rests};
ghost use Rattle.idle_log.specs.Kept.{held_in, lb_in, log_in};
ghost use Rattle.node.specs.Boot.{HasBase, HoldSaved, HoldWhole, IsFound, IsFresh, WritesBoot, after_boot, boot_mark, booted_stock, booted_without, has_boot_mark, is_within, mark_before};
ghost use Rattle.node.specs.Node.{mark_with, server};
ghost use Rattle.node.specs.Outcomes.{FailsOnce};
ghost use Rattle.node.specs.Stock.{stock};
ghost use Rattle.power_save.specs.Saved.{IsNotSaved};

use crate::fault::NodeFault;
use crate::node::Node;
use harp_store::{Mark, Store};
use harp_types::ServerId;
use idle_log::{Kept, can_have};
use power_save::{SaveFault, SeenRecords, load};
use promise::{Delta, Horizon};
use std::alloc::Global;

impl Node {
    /// Boots a server from its disk, at this reading of its clock, which is below 2^62, with
    /// promises that last for `delta`. First the mark is written, where it changes: the first one
    /// of a new disk, or the one that is there, with the longest promise that its disk ever saw,
    /// which is of 2000 at least for a new disk. Then the server rests for so long. It holds its
    /// saved log where a choice can give it its role and the disk has that log whole; else it holds
    /// nothing, as server 2 that stands outside, or its log is lost. Records that an earlier boot
    /// read are shared. After an error the disk has the mark as it was or the one written first. It
    /// is never Halted.
    pub fn boot<D: Store>(
        alloc: Global,
        me: ServerId,
        now: u64,
        delta: Delta,
        store: &mut D,
        seen: &mut SeenRecords,
    ) -> Result<Node, NodeFault>
        requires { now < 2 ^ 62 }
        ensures boots { (h : Moments) (items : List Entry) → D.told store.old ≡ Some h
            → HoldSaved (reads h.now) (boot_mark me delta h.now.mark) items
            → IfOk result (λ n. server n items ≡ booted (place_of me) now delta
            (mark_before me delta items h.now.mark)) }
        ensures lost { (h : Moments) (items : List Entry) → D.told store.old ≡ Some h
            → IsNotSaved (reads h.now) (boot_mark me delta h.now.mark)
            → IfOk result (λ n. server n items ≡ booted_without (place_of me) now delta
            (mark_before me delta items h.now.mark)) }
        ensures records { (h : Moments) (saved : List RecordFields) → D.told store.old ≡ Some h
            → HoldWhole (reads h.now) (boot_mark me delta h.now.mark) saved
            → IfOk result (λ n. stock n ≡ booted_stock n.plain saved) }
        ensures fresh { IfOk result (IsFresh me) }
        ensures mark { (h : Moments) → D.told store.old ≡ Some h
            → HasBase (place_of me) (boot_mark me delta h.now.mark)
            → IfOk result (λ n. n.mark ≡ boot_mark me delta h.now.mark) }
        ensures disk { WritesBoot result me delta (D.told store.old) (D.told store.new) }
        ensures faults { FailsOnce result (D.faults store.old) (D.faults store.new) }
    {
        let mark = first_write::<D>(alloc, me, delta, store)?;
        let kept = found::<D>(alloc, me, &mark, store, seen)?;
        let horizon = Horizon::boot(now, longest_of(&mark), delta);
        Ok(Node::resting(me, lowered(mark, &kept), horizon, kept))
    }
}

/// Writes the mark that a boot goes on from, where the disk has another one.
fn first_write<D: Store>(
    alloc: Global,
    me: ServerId,
    delta: Delta,
    store: &mut D,
) -> Result<Mark, NodeFault>
    ensures mark { (h : Moments) → D.told store.old ≡ Some h
        → IfOk result (λ mark. mark ≡ boot_mark me delta h.now.mark) }
    ensures longest { IfOk result (λ mark. delta ≤ longest_of mark.longest) }
    ensures written { OnOk result (D.told store.new
        ≡ after_boot me delta (D.told store.old)) }
    ensures part { OnErr result ((D.told store.new ≡ D.told store.old)
        ⊎ (D.told store.new ≡ after_boot me delta (D.told store.old))) }
    ensures faults { FailsOnce result (D.faults store.old) (D.faults store.new) }
{
    let old = store.read_mark(alloc)?;
    let mark = boot_mark(me, delta, &old);
    if has_boot_mark(delta, &old) {
        return Ok(mark);
    }
    store.write_mark(alloc, &mark)?;
    Ok(mark)
}

/// Whether a disk with this mark has the one that a boot goes on from.
fn has_boot_mark(delta: Delta, old: &Option<Mark>) -> bool
    ensures { result ≡ has_boot_mark delta old.now }
{
    match old {
        Some(mark) => is_within(delta, mark.longest()),
        None => false,
    }
}

/// Whether the longest promise of a mark is no shorter than this one.
fn is_within(delta: Delta, longest: Option<u32>) -> bool
    ensures { result ≡ is_within delta longest }
{
    match longest {
        Some(millis) => delta.get() <= millis,
        None => false,
    }
}

/// The mark that a boot goes on from, by the one that the disk has. A new disk takes it that it saw
/// the promise with which a group begins, however short `delta` is.
fn boot_mark(me: ServerId, delta: Delta, old: &Option<Mark>) -> Mark
    ensures mark { result ≡ boot_mark me delta old.now }
    ensures longest { delta ≤ longest_of result.longest }
{
    let _ = delta.get();
    match old {
        Some(mark) => mark.with_longest(delta.longer(longest_of(mark)).get()),
        None => Mark::first(me, delta.longer(Delta::first()).get()),
    }
}

/// The longest promise of a mark's disk: 2000 where the mark is an old one.
fn longest_of(mark: &Mark) -> Delta
    ensures { result ≡ longest_of mark.now.longest }
{
    match mark.longest() {
        Some(millis) => Delta::new(millis),
        None => Delta::first(),
    }
}

/// What a server holds that boots from this mark of its disk.
fn found<D: Store>(
    alloc: Global,
    me: ServerId,
    mark: &Mark,
    store: &mut D,
    seen: &mut SeenRecords,
) -> Result<Kept, NodeFault>
    ensures boots { (cells : Cells) (items : List Entry) (clock delta : ℕ)
        → cells_told (D.told store.old) ≡ Some cells → HoldSaved cells mark.now items
        → IfOk result (λ k. rested (place_of me) clock delta (mark_with items mark.now)
        ≡ rests clock delta (mark_with items mark.now) k) }
    ensures lost { (cells : Cells) (items : List Entry) (clock delta : ℕ)
        → cells_told (D.told store.old) ≡ Some cells → IsNotSaved cells mark.now
        → IfOk result (λ k. rested (place_of me) clock delta
        (mark_with items (record mark.now { saved = None }))
        ≡ rests clock delta (mark_with items (record mark.now { saved = None })) k) }
    ensures records { (cells : Cells) (saved : List RecordFields)
        → cells_told (D.told store.old) ≡ Some cells → HoldWhole cells mark.now saved
        → IfOk result (λ k. (log_in k).records ≡ (if is_log (held_in k) then saved else [])) }
    ensures fits { IfOk result (IsFound (place_of me) mark.now) }
    ensures kept { D.told store.new ≡ D.told store.old }
    ensures faults { FailsOnce result (D.faults store.old) (D.faults store.new) }
{
    if !can_have(me, mark.role()) {
        return Ok(Kept::unloaded(me, mark.role(), mark.lb()));
    }
    match load::<D>(alloc, mark, store, seen) {
        Ok(log) => Ok(Kept::loaded(me, log)),
        Err(SaveFault::NotSaved) => Ok(Kept::unloaded(me, mark.role(), mark.lb())),
        Err(SaveFault::StoreFailed) => Err(NodeFault::StoreFailed),
        Err(SaveFault::NoMemory) => Err(NodeFault::NoMemory),
    }
}

/// The mark of a server that keeps this: server 2 has LB at the base of its log.
fn lowered(mark: Mark, kept: &Kept) -> Mark
    requires { lb_in mark.lb kept.now < 2 ^ 62 }
    ensures { result ≡ record mark { lb = lb_in mark.lb kept.now } }
{
    match kept {
        Kept::Held(log) => mark.with_lb(log.lb()),
        Kept::Lost(log) => mark.with_lb(log.lb()),
        Kept::Empty(_) => mark,
    }
}
