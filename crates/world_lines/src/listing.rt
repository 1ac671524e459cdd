//! The lines of a listing.

ghost use Rattle.std.specs.Prelude.{◌≡◌, ◌++◌, ◌∷◌, map, IfOk, OnOk};
ghost use Rattle.file_tree.specs.Tree.{Tree};
ghost use Rattle.trace_claims.specs.Listing.{living, tree_lines};
ghost use Rattle.trace_types.specs.declared.line.Line.TheVariants as line;
ghost use Rattle.tree_listing.specs.Listing.{tree_listed};
ghost use Rattle.world_lines.specs.Lines.{line_of_block, line_of_slot, lines_of_listing, lines_of_object, lines_of_objects, lines_of_text};

use harp_types::{Bounded, LONGEST_PATH, ServerId};
use std::alloc::{AllocError, Global};
use trace_types::Line;
use tree_listing::{Listed, ListedBlock, ListedSlot, Listing, Row};

fn push_slots(lines: &mut Vec<Line>, dir: u32, slots: Row<ListedSlot>) -> Result<(), AllocError>
    ensures { OnOk result (lines.new.items ≡ lines.old.items ++ map (line_of_slot dir) slots) }
{
    for slot in slots.into_vec() {
        lines.push(Line::Slot {
            dir,
            slot: slot.slot,
            number: slot.object,
            name: slot.name,
        })?;
    }
    Ok(())
}

fn push_blocks(lines: &mut Vec<Line>, file: u32, blocks: Row<ListedBlock>) -> Result<(), AllocError>
    ensures { OnOk result (lines.new.items ≡ lines.old.items ++ map (line_of_block file) blocks) }
{
    for block in blocks.into_vec() {
        lines.push(Line::Block {
            file,
            block: block.block,
            bytes: block.bytes,
        })?;
    }
    Ok(())
}

fn push_text(
    lines: &mut Vec<Line>,
    link: u32,
    text: Option<Bounded<LONGEST_PATH>>,
) -> Result<(), AllocError>
    ensures { OnOk result (lines.new.items ≡ lines.old.items ++ lines_of_text link text) }
{
    if let Some(text) = text {
        lines.push(Line::Text { link, text })?;
    }
    Ok(())
}

fn push_object(lines: &mut Vec<Line>, object: Listed) -> Result<(), AllocError>
    ensures { OnOk result (lines.new.items ≡ lines.old.items ++ lines_of_object object) }
{
    let Listed {
        attr,
        slots,
        blocks,
        text,
    } = object;
    lines.push(Line::Object { attr })?;
    push_slots(lines, attr.fileid, slots)?;
    push_blocks(lines, attr.fileid, blocks)?;
    push_text(lines, attr.fileid, text)
}

fn push_objects(lines: &mut Vec<Line>, objects: Row<Listed>) -> Result<(), AllocError>
    ensures { OnOk result (lines.new.items ≡ lines.old.items ++ lines_of_objects objects) }
{
    for object in objects.into_vec() {
        push_object(lines, object)?;
    }
    Ok(())
}

/// The lines that show a server's listing: that it lists, and each object followed by its parts.
/// No name, block or text is copied.
pub fn lines_of_listing(
    alloc: Global,
    server: ServerId,
    listing: Listing,
) -> Result<Vec<Line>, AllocError>
    ensures lines { IfOk result (λ lines. lines.items ≡ lines_of_listing server listing) }
    // Of a tree's listing they are the lines of the tree.
    ensures shows { (tree : Tree) → listing.objects ≡ tree_listed tree
        → IfOk result (λ lines. lines.items
        ≡ line.Listed server listing.cp (living tree) ∷ tree_lines tree) }
{
    let mut lines = Vec::new(alloc);
    lines.push(Line::Listed {
        server,
        cp: listing.cp,
        objects: listing.objects.as_slice().len() as u64,
    })?;
    push_objects(&mut lines, listing.objects)?;
    Ok(lines)
}
