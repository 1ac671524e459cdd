//! Changes of single cells, added to a list of them.

ghost use Rattle.std.specs.Prelude.{◌≡◌, ◌∷◌, ◌++◌, [], IfOk};
ghost use Rattle.harp_cells.specs.declared.cell.Cell.TheVariants as cell;
ghost use Rattle.harp_cells.specs.declared.value.Value.TheVariants as value;
ghost use Rattle.harp_cells.specs.declared.change.Change.TheVariants as change;

use harp_cells::{Cell, Change, Inode, NonEmpty, Value};
use harp_types::LONGEST_NAME;
use std::alloc::{AllocError, Global};

/// An object gets attributes.
pub fn put_object(
    alloc: Global,
    changes: &mut Vec<Change>,
    number: u32,
    inode: &Inode,
) -> Result<(), AllocError>
    ensures { IfOk result (λ _. changes.new.items
        ≡ changes.old.items ++ change.Put (cell.Object number) (value.Object inode.now) ∷ []) }
{
    let value = Value::Object { inode: *inode };
    let put = Change::put(alloc, Cell::Object { object: number }, value)?;
    changes.push(put)?;
    Ok(())
}

/// An object goes.
pub fn erase_object(changes: &mut Vec<Change>, number: u32) -> Result<(), AllocError>
    ensures { IfOk result (λ _. changes.new.items ≡ changes.old.items
        ++ change.Erase (cell.Object number) ∷ []) }
{
    changes.push(Change::Erase {
        cell: Cell::Object { object: number },
    })?;
    Ok(())
}

/// All blocks of an object go.
pub fn erase_blocks(changes: &mut Vec<Change>, number: u32) -> Result<(), AllocError>
    ensures { IfOk result (λ _. changes.new.items ≡ changes.old.items ++ change.EraseFrom number 0
        ∷ []) }
{
    changes.push(Change::EraseFrom {
        object: number,
        first: 0,
    })?;
    Ok(())
}

/// A slot gets an entry.
pub fn put_slot(
    alloc: Global,
    changes: &mut Vec<Change>,
    dir: u32,
    slot: u32,
    object: u32,
    name: NonEmpty<LONGEST_NAME>,
) -> Result<(), AllocError>
    ensures { IfOk result (λ _. changes.new.items
        ≡ changes.old.items ++ change.Put (cell.Slot dir slot) (value.Slot object name) ∷ []) }
{
    let value = Value::Slot { object, name };
    let put = Change::put(alloc, Cell::Slot { object: dir, slot }, value)?;
    changes.push(put)?;
    Ok(())
}

/// A slot is freed.
pub fn erase_slot(changes: &mut Vec<Change>, dir: u32, slot: u32) -> Result<(), AllocError>
    ensures { IfOk result (λ _. changes.new.items ≡ changes.old.items
        ++ change.Erase (cell.Slot dir slot) ∷ []) }
{
    changes.push(Change::Erase {
        cell: Cell::Slot { object: dir, slot },
    })?;
    Ok(())
}
