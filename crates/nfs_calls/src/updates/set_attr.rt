//! Attributes that are set.

ghost use Rattle.std.specs.Prelude.{◌≡◌, ◌≤◌, ◌<◌, ◌≢◌, ℕ, Some, Ok, Err, IfOk};
ghost use Rattle.harp_types.specs.Limits.{field_left, largest_file};
ghost use Rattle.harp_types.specs.Streams.{Rose};
ghost use Rattle.harp_types.specs.declared.call.Call.TheVariants as call;
ghost use Rattle.harp_types.specs.declared.attr.Kind.TheVariants as kinds;
ghost use Rattle.file_tree.specs.Tree.{Tree, used_blocks};
ghost use Rattle.file_tree.specs.Outcome.{given, given_mode, given_time, mtime_for_size, set_attr, set_fields, with_size};
ghost use Rattle.harp_cells.specs.Effect.{Cells};
ghost use Rattle.cell_changes.specs.Short.{AreShort};
ghost use Rattle.cell_changes.specs.TreeCells.{TreeCells};
ghost use Rattle.nfs_calls.specs.TreeCells.{IsInode, object_at};
ghost use Rattle.nfs_calls.specs.Plans.{plan_view, planned, totals_of};
ghost use Rattle.nfs_calls.specs.Attributes.{IsSet, bytes_given, resizes_by, set_inode, set_tree};
ghost use Rattle.nfs_calls.specs.Space.{used_with};
ghost use Rattle.nfs_calls.specs.Gives.{Gives, Tells};
ghost use Rattle.nfs_calls.specs.Forms.{attr_form, form};

use crate::error::CallError;
use crate::parts::file::bytes_in;
use crate::parts::inode::{attr_by, live};
use crate::parts::names::refuse;
use crate::parts::permissions::{allowed, settable};
use crate::parts::pushes::put_object;
use crate::parts::space::replaced;
use crate::parts::totals::Totals;
use crate::updates::planned::Planned;
use file_tree::TO_WRITE;
use harp_cells::{CellFault, CellRead, Change, Inode};
use harp_types::{Cred, FIELD_LEFT, LARGEST_FILE, Reply, SetAttr, Status, Time};
use inode_blocks::cut_to;
use std::alloc::Global;

/// A field of SETATTR, or the old value where it is left.
pub fn given(new: u32, old: u32) -> u32
    ensures { result ≡ given new old }
{
    if new == FIELD_LEFT { old } else { new }
}

/// A given mode has 12 bits.
pub fn given_mode(new: u32, old: u16) -> u16
    ensures { result ≡ given_mode new old }
{
    if new == FIELD_LEFT {
        old
    } else {
        (new % 4096) as u16
    }
}

/// A given time; its seconds say whether it is left.
pub fn given_time(new: Time, old: Time) -> Time
    ensures { result ≡ given_time new old }
{
    if new.seconds == FIELD_LEFT { old } else { new }
}

/// The mtime where none is given: a given size changes it.
fn mtime_for_size(size: u32, old: Time, now: Time) -> Time
    ensures { result ≡ mtime_for_size size old now }
{
    if size == FIELD_LEFT { old } else { now }
}

/// An object's attributes with the given ones set.
#[tactic(auto, unfolding(crate::specs::Attributes::set_inode))]
fn set_inode(inode: &Inode, attr: &SetAttr, now: Time) -> Inode
    ensures { result ≡ set_inode inode.now attr.now now }
{
    Inode {
        mode: given_mode(attr.mode, inode.mode),
        uid: given(attr.uid, inode.uid),
        gid: given(attr.gid, inode.gid),
        size: given(attr.size, inode.size),
        atime: given_time(attr.atime, inode.atime),
        mtime: given_time(attr.mtime, mtime_for_size(attr.size, inode.mtime, now)),
        ctime: now,
        ..*inode
    }
}

/// The used blocks with an object of a given size, which only a file gets.
#[tactic(auto, unfolding(file_tree::specs::Outcome::with_size))]
fn with_size(cred: Cred, inode: &Inode, used: u32, size: u32) -> Result<u32, Status>
    ensures step { (tree : Tree) (number : ℕ) → IsInode tree number inode.now
        → used_blocks tree ≡ used
        → Tells (λ _. bytes_given (object_at tree number).body size) result
        (with_size tree cred number (object_at tree number).body size) }
    ensures used { IfOk result (λ after. used_with used inode.now.size size ≡ Ok after) }
    ensures file { IfOk result (λ _. size ≢ field_left → inode.now.kind ≡ kinds.Regular) }
    ensures small { IfOk result (λ _. size ≢ field_left → size ≤ largest_file) }
{
    if size == FIELD_LEFT {
        return Ok(used);
    }
    bytes_in(inode.kind)?;
    allowed(cred, inode, TO_WRITE)?;
    refuse(Status::FBig, size > LARGEST_FILE)?;
    replaced(u64::from(used), inode.size, u64::from(size))
}

/// The changes that give a file of a size another one, where one is given.
fn resize<R: CellRead>(
    alloc: Global,
    cells: &mut R,
    handle: u32,
    size: u32,
    wanted: u32,
) -> Result<Vec<Change>, CellFault>
    requires { wanted ≢ field_left → wanted ≤ largest_file }
    ensures changes { (held : Cells) → R.cells cells.old ≡ Some held
        → IfOk result (λ changes. changes.items ≡ resizes_by held handle size wanted) }
    ensures short { IfOk result (λ changes. AreShort 2 changes.items) }
    ensures kept { R.cells cells.new ≡ R.cells cells.old }
    ensures left { R.left cells.new ≡ R.left cells.old }
    ensures rose { result ≡ Err CellFault.StoreFailed
        → Rose (R.faults cells.old) (R.faults cells.new) }
    ensures count { R.faults cells.old ≤ R.faults cells.new }
{
    let mut changes = Vec::new(alloc);
    if wanted == FIELD_LEFT {
        return Ok(changes);
    }
    cut_to(alloc, cells, handle, size, wanted, &mut changes)?;
    Ok(changes)
}

/// An object whose attributes are set: these, the changes, and the totals.
#[derive(Drop)]
pub struct Set {
    pub inode: Inode,
    pub changes: Vec<Change>,
    pub totals: Totals,
}

/// The attributes of an object are set, which are these.
#[tactic(auto, unfolding(file_tree::specs::Outcome::set_fields))]
pub fn set_found<R: CellRead>(
    alloc: Global,
    cells: &mut R,
    totals: Totals,
    cred: Cred,
    handle: u32,
    inode: &Inode,
    attr: &SetAttr,
    now: Time,
) -> Result<Set, CallError>
    ensures step { (t : TreeCells) → R.cells cells.old ≡ Some t.cells → totals ≡ totals_of t.tree
        → IsInode t.tree handle inode.now
        → Gives (λ _. set_tree t.tree handle attr.now now) result
        (set_fields t.tree cred handle attr.now now) }
    ensures set { (t : TreeCells) → R.cells cells.old ≡ Some t.cells → totals ≡ totals_of t.tree
        → IsInode t.tree handle inode.now
        → IfOk result (IsSet t.cells t.tree
        (set_tree t.tree handle attr.now now) handle attr.now.size) }
    ensures short { IfOk result (λ s. AreShort 3 s.changes.items) }
    ensures kept { R.cells cells.new ≡ R.cells cells.old }
    ensures left { R.left cells.new ≡ R.left cells.old }
    ensures rose { result ≡ Err (CallError.Fault CellFault.StoreFailed)
        → Rose (R.faults cells.old) (R.faults cells.new) }
    ensures count { R.faults cells.old ≤ R.faults cells.new }
{
    settable(cred, inode, attr)?;
    let used = with_size(cred, inode, totals.used, attr.size)?;
    let mut changes = resize(alloc, cells, handle, inode.size, attr.size)?;
    let new = set_inode(inode, attr, now);
    put_object(alloc, &mut changes, handle, &new)?;
    Ok(Set {
        inode: new,
        changes,
        totals: Totals {
            next: totals.next,
            used,
        },
    })
}

/// SETATTR (RFC 1094, section 2.2.3).
#[tactic(auto, unfolding(file_tree::specs::Outcome::set_attr, file_tree::specs::Outcome::set_fields))]
pub fn set_attr<R: CellRead>(
    alloc: Global,
    cells: &mut R,
    totals: Totals,
    cred: Cred,
    handle: u32,
    attr: &SetAttr,
    now: Time,
) -> Result<Planned, CallError>
    ensures plan { (t : TreeCells) → R.cells cells.old ≡ Some t.cells → totals ≡ totals_of t.tree
        → Gives plan_view result
        (planned t.cells t.tree (call.SetAttr handle attr.now)
        (set_attr t.tree cred handle attr.now now)) }
    ensures short { IfOk result (λ p. AreShort 13 p.changes.items) }
    ensures form { IfOk result (λ p. form p.reply ≡ attr_form) }
    ensures kept { R.cells cells.new ≡ R.cells cells.old }
    ensures left { R.left cells.new ≡ R.left cells.old }
    ensures rose { result ≡ Err (CallError.Fault CellFault.StoreFailed)
        → Rose (R.faults cells.old) (R.faults cells.new) }
    ensures count { R.faults cells.old ≤ R.faults cells.new }
{
    let inode = live(cells, handle)?;
    let set = set_found(alloc, cells, totals, cred, handle, &inode, attr, now)?;
    Ok(Planned {
        reply: Reply::Attr {
            attr: attr_by(handle, &set.inode),
        },
        changes: set.changes,
        totals: set.totals,
    })
}
