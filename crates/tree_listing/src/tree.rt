//! The objects of a tree, each with its parts.

ghost use Rattle.std.specs.Prelude.{◌≡◌, ◌≤◌, ◌++◌, Option, Some, Err, IfOk, OnOk};
ghost use Rattle.harp_types.specs.Streams.{Rose};
ghost use Rattle.file_tree.specs.declared.object.Object.{Object};
ghost use Rattle.file_tree.specs.Tree.{place};
ghost use Rattle.harp_cells.specs.CellsOfTree.{inode_of};
ghost use Rattle.cell_changes.specs.TreeCells.{TreeCells};
ghost use Rattle.tree_listing.specs.Listing.{blocks_listed, bytes_of_file, listed, object_listed, text_of_link, tree_listed};

use crate::blocks::list_blocks;
use crate::inode::{attr_by, inode_at, next_number};
use crate::listing::{Listed, ListedBlock, Row};
use crate::slots::list_slots;
use harp_cells::{CellFault, CellRead, Inode};
use harp_types::{Bounded, Kind, LONGEST_PATH};
use inode_blocks::read_bytes;
use std::alloc::Global;

// The blocks of a file, none of what isn't one.
fn file_blocks<R: CellRead>(
    alloc: Global,
    cells: &mut R,
    number: u32,
    inode: &Inode,
) -> Result<Row<ListedBlock>, CellFault>
    ensures blocks { (t : TreeCells) (o : Object) → R.cells cells.old ≡ Some t.cells
        → place t.tree number ≡ Some o → inode.now ≡ inode_of t.tree number o
        → IfOk result (λ l. l ≡ blocks_listed (bytes_of_file o.body)) }
    ensures kept { R.cells cells.new ≡ R.cells cells.old }
    ensures left { R.left cells.new ≡ R.left cells.old }
    ensures rose { result ≡ Err CellFault.StoreFailed
        → Rose (R.faults cells.old) (R.faults cells.new) }
    ensures count { R.faults cells.old ≤ R.faults cells.new }
{
    match inode.kind {
        Kind::Regular => list_blocks(alloc, cells, number, inode.size),
        Kind::Directory => Ok(Row::new(alloc)),
        Kind::Link => Ok(Row::new(alloc)),
    }
}

// The text of a link, nothing of what isn't one.
fn link_text<R: CellRead>(
    alloc: Global,
    cells: &mut R,
    number: u32,
    inode: &Inode,
) -> Result<Option<Bounded<LONGEST_PATH>>, CellFault>
    ensures text { (t : TreeCells) (o : Object) → R.cells cells.old ≡ Some t.cells
        → place t.tree number ≡ Some o → inode.now ≡ inode_of t.tree number o
        → IfOk result (λ x. x ≡ text_of_link o.body) }
    ensures kept { R.cells cells.new ≡ R.cells cells.old }
    ensures left { R.left cells.new ≡ R.left cells.old }
    ensures rose { result ≡ Err CellFault.StoreFailed
        → Rose (R.faults cells.old) (R.faults cells.new) }
    ensures count { R.faults cells.old ≤ R.faults cells.new }
{
    match inode.kind {
        Kind::Link => {
            let text = read_bytes(alloc, cells, number, inode.size, 0, LONGEST_PATH as u32)?;
            Ok(Some(Bounded::new(text.into_vec())))
        }
        Kind::Regular => Ok(None),
        Kind::Directory => Ok(None),
    }
}

// An object with these attributes, and its parts.
fn list_parts<R: CellRead>(
    alloc: Global,
    cells: &mut R,
    number: u32,
    inode: &Inode,
) -> Result<Listed, CellFault>
    ensures object { (t : TreeCells) (o : Object) → R.cells cells.old ≡ Some t.cells
        → place t.tree number ≡ Some o → inode.now ≡ inode_of t.tree number o
        → IfOk result (λ l. l ≡ listed t.tree number o) }
    ensures kept { R.cells cells.new ≡ R.cells cells.old }
    ensures left { R.left cells.new ≡ R.left cells.old }
    ensures rose { result ≡ Err CellFault.StoreFailed
        → Rose (R.faults cells.old) (R.faults cells.new) }
    ensures count { R.faults cells.old ≤ R.faults cells.new }
{
    let slots = list_slots(alloc, cells, number, inode.slots)?;
    let blocks = file_blocks(alloc, cells, number, inode)?;
    let text = link_text(alloc, cells, number, inode)?;
    Ok(Listed {
        attr: attr_by(number, inode),
        slots,
        blocks,
        text,
    })
}

// Lists the object of a number, where one lives.
fn list_object<R: CellRead>(
    alloc: Global,
    cells: &mut R,
    number: u32,
    objects: &mut Row<Listed>,
) -> Result<(), CellFault>
    ensures object { (t : TreeCells) → R.cells cells.old ≡ Some t.cells
        → OnOk result (objects.new ≡ objects.old
        ++ object_listed t.tree number (place t.tree number)) }
    ensures kept { R.cells cells.new ≡ R.cells cells.old }
    ensures left { R.left cells.new ≡ R.left cells.old }
    ensures rose { result ≡ Err CellFault.StoreFailed
        → Rose (R.faults cells.old) (R.faults cells.new) }
    ensures count { R.faults cells.old ≤ R.faults cells.new }
{
    let Some(inode) = inode_at(cells, number)? else {
        return Ok(());
    };
    let object = list_parts(alloc, cells, number, &inode)?;
    objects.push(object)?;
    Ok(())
}

/// The live objects of the tree that cells stand for, by number, each with its parts: the used
/// slots of a directory, the blocks of a file with another byte than 0, the text of a link. It
/// fetches the cell of each number that was ever given, and the cells of the parts of what lives,
/// each once. Cells of clients, and those that no live object names, are left aside.
pub fn list_tree<R: CellRead>(alloc: Global, cells: &mut R) -> Result<Row<Listed>, CellFault>
    ensures list { (t : TreeCells) → R.cells cells.old ≡ Some t.cells
        → IfOk result (λ objects. objects ≡ tree_listed t.tree) }
    ensures kept { R.cells cells.new ≡ R.cells cells.old }
    ensures left { R.left cells.new ≡ R.left cells.old }
    ensures rose { result ≡ Err CellFault.StoreFailed
        → Rose (R.faults cells.old) (R.faults cells.new) }
    ensures count { R.faults cells.old ≤ R.faults cells.new }
{
    let next = next_number(cells)?;
    let mut objects = Row::new(alloc);
    for number in 1..next {
        list_object(alloc, cells, number, &mut objects)?;
    }
    Ok(objects)
}
