//! What was put and erased since the last sync.

ghost use Rattle.std.specs.Prelude.{◌≡◌, ◌⊎◌, ◌≤◌, ◌++◌, ◌∷◌, ℕ, [], true, false, Contains, Some, None, IfOk, OnOk, OnErr, if◌then◌else◌};
ghost use Rattle.harp_cells.specs.declared.cell.Cell.{Cell as CellName};
ghost use Rattle.harp_cells.specs.declared.cell.Cell.TheVariants as cell;
ghost use Rattle.harp_cells.specs.declared.change.Change.TheVariants as change;
ghost use Rattle.harp_cells.specs.Effect.{is_cell};
ghost use Rattle.store_folder.specs.Sync.{AreAll, AreUnsynced, KeepsBlocks, made_change, made_changes};
ghost use Rattle.store_folder.specs.Unsynced.{GainsBlock, HasBlocks, IsAlike, IsChanged, IsNothing, Stays, cut_of, earlier, is_cut, is_from, is_stored, is_touched, made_of};
ghost use Rattle.harp_cells.specs.Memory.{held};

use harp_cells::{Cell, CellRead, Change, Key, MemCells, Value};
use std::alloc::{AllocError, Global};
use std::collections::{BTreeMap, BTreeSet};
use std::marker::Model;

/// The changes since the last sync, and which blocks the disk has. A call costs a logarithm of the
/// number of changes, and an erasure of blocks one for each block that was put since.
#[derive(Drop)]
pub struct Unsynced {
    // What was put and not erased since.
    values: MemCells,
    // The cells that were put or erased.
    touched: BTreeMap<Key, Cell>,
    // The block from which on an object's blocks were erased.
    cuts: BTreeMap<u32, u32>,
    // The blocks that the disk has or will have.
    blocks: BTreeSet<(u32, u32)>,
}

impl Model for Unsynced {
    ghost use Rattle.std.specs.Prelude.{◌<◌, ◌^◌, All};
    ghost use Rattle.store_folder.specs.Unsynced.{IsKeyed, Pending};

    ghost Value = { Pending };

    ghost view = { λ u. record {
      values = u.values;
      touched = u.touched.entries;
      cuts = u.cuts.entries;
      blocks = u.blocks.keys;
    } };

    ghost invariant = { λ u. IsKeyed u.touched.entries × All (λ b. b.1 < 2 ^ 32) u.blocks.keys };
}

impl Unsynced {
    /// No changes, and a disk without blocks.
    #[tactic(auto, unfolding(crate::specs::Unsynced::is_touched, crate::specs::Unsynced::is_cut))]
    pub fn new(alloc: Global) -> Unsynced
        ensures nothing { IsNothing result }
        ensures blocks { result.blocks ≡ [] }
    {
        Unsynced {
            values: MemCells::new(alloc),
            touched: BTreeMap::new(alloc),
            cuts: BTreeMap::new(alloc),
            blocks: BTreeSet::new(alloc),
        }
    }

    /// The disk has this block.
    pub fn add_block(&mut self, object: u32, block: u32) -> Result<(), AllocError>
        ensures added { OnOk result (GainsBlock (cell.Block object block) self.old self.new) }
        ensures same { self.new ≡ record self.old { blocks = self.new.blocks } }
        ensures kept { OnErr result (self.new ≡ self.old) }
    {
        self.blocks.insert((object, block))?;
        Ok(())
    }

    /// The disk doesn't have this cell's value any more.
    pub fn forget(&mut self, cell: Cell)
        ensures lost { (c : CellName) → is_stored self.new.blocks c
            ≡ (if is_cell cell c then false else is_stored self.old.blocks c) }
        ensures same { self.new ≡ record self.old { blocks = self.new.blocks } }
    {
        if let Cell::Block { object, block } = cell {
            self.blocks.remove(&(object, block));
        }
    }

    // Whether a cell was put or erased.
    fn is_touched(&self, cell: Cell) -> bool
        ensures { result ≡ is_touched self.now.touched cell }
    {
        self.touched.contains_key(&cell.key())
    }

    // The block from which on an object's blocks were erased.
    fn cut_of(&self, object: u32) -> Option<u32>
        ensures { result ≡ cut_of self.now.cuts object }
    {
        self.cuts.get(&object).copied()
    }

    // Whether a cell is a block of an object from its cut on.
    #[tactic(auto, unfolding(crate::specs::Unsynced::is_cut))]
    fn is_cut(&self, cell: Cell) -> bool
        ensures { result ≡ is_cut self.now.cuts cell }
    {
        let (kind, object, block) = cell.key();
        kind == 3 && self.is_from_cut(object, block)
    }

    // Whether a block stands at its object's cut or behind it.
    fn is_from_cut(&self, object: u32, block: u32) -> bool
        ensures { result ≡ is_from (cut_of self.now.cuts object) block }
    {
        match self.cut_of(object) {
            Some(first) => first <= block,
            None => false,
        }
    }

    // The block from which on an object's blocks are erased, after those from the first on are.
    fn earlier_cut(&self, object: u32, first: u32) -> u32
        ensures { result ≡ earlier (cut_of self.now.cuts object) first }
    {
        match self.cut_of(object) {
            Some(cut) => cut.min(first),
            None => first,
        }
    }

    // The value that was put in a cell and not erased since.
    fn held(&mut self, alloc: Global, cell: Cell) -> Result<Option<Value>, AllocError>
        ensures value { IfOk result (λ value. value ≡ held self.old.values cell) }
        ensures same { Stays self.old self.new }
        ensures blocks { self.new.blocks ≡ self.old.blocks }
    {
        let _fetched = self.values.fetch(cell);
        match self.values.value() {
            Some(value) => Ok(Some(value.copy(alloc)?)),
            None => Ok(None),
        }
    }

    /// What was made of a cell: a value, an erasure, or nothing.
    pub fn find(&mut self, alloc: Global, cell: Cell) -> Result<Option<Option<Value>>, AllocError>
        ensures made { IfOk result (λ made. made ≡ made_of self.old cell) }
        ensures same { Stays self.old self.new }
        ensures alike { IsAlike self.old self.new }
        ensures blocks { self.new.blocks ≡ self.old.blocks }
    {
        if self.is_touched(cell) || self.is_cut(cell) {
            Ok(Some(self.held(alloc, cell)?))
        } else {
            Ok(None)
        }
    }

    /// The cell holds the value. Where memory runs out, it does or all is as before.
    pub fn put(&mut self, alloc: Global, cell: Cell, value: &Value) -> Result<(), AllocError>
        ensures put { OnOk result (IsChanged (change.Put cell value.now) self.old self.new) }
        ensures part { OnErr result (IsAlike self.old self.new
            ⊎ IsChanged (change.Put cell value.now) self.old self.new) }
        ensures added { OnOk result (GainsBlock cell self.old self.new) }
        ensures blocks { HasBlocks self.old self.new }
    {
        if let Cell::Block { object, block } = cell {
            self.add_block(object, block)?;
        }
        self.put_value(cell, value.copy(alloc)?)
    }

    fn put_value(&mut self, cell: Cell, value: Value) -> Result<(), AllocError>
        ensures put { OnOk result (IsChanged (change.Put cell value) self.old self.new) }
        ensures part { OnErr result (IsAlike self.old self.new
            ⊎ IsChanged (change.Put cell value) self.old self.new) }
        ensures blocks { self.new.blocks ≡ self.old.blocks }
    {
        self.values.put(cell, value)?;
        self.touched.insert(cell.key(), cell)?;
        Ok(())
    }

    /// The cell is absent. Where memory runs out, all is as before.
    pub fn erase(&mut self, cell: Cell) -> Result<(), AllocError>
        ensures erased { OnOk result (IsChanged (change.Erase cell) self.old self.new) }
        ensures alike { OnErr result (IsAlike self.old self.new) }
        ensures blocks { self.new.blocks ≡ self.old.blocks }
    {
        self.touched.insert(cell.key(), cell)?;
        self.values.erase(cell);
        Ok(())
    }

    /// The blocks of the object from the first on are absent. Where memory runs out, all is as
    /// before.
    pub fn erase_from(&mut self, object: u32, first: u32) -> Result<(), AllocError>
        ensures erased { OnOk result (IsChanged (change.EraseFrom object first) self.old
            self.new) }
        ensures alike { OnErr result (IsAlike self.old self.new) }
        ensures blocks { self.new.blocks ≡ self.old.blocks }
    {
        let cut = self.earlier_cut(object, first);
        self.cuts.insert(object, cut)?;
        self.values.erase_from(object, first);
        Ok(())
    }

    // The blocks of the disk from an object's cut on, but for those that were put since.
    fn add_cut_blocks(
        &self,
        object: u32,
        first: u32,
        cells: &mut Vec<Cell>,
    ) -> Result<(), AllocError>
        ensures kept { (c : CellName) → Contains cells.old.items c → Contains cells.new.items c }
        ensures added { OnOk result ((block : ℕ) → first ≤ block
            → is_stored self.now.blocks (cell.Block object block) ≡ true
            → is_touched self.now.touched (cell.Block object block) ≡ false
            → Contains cells.new.items (cell.Block object block)) }
    {
        for (_, block) in self.blocks.range((object, first)..=(object, u32::MAX)) {
            let cell = Cell::Block {
                object,
                block: *block,
            };
            if !self.is_touched(cell) {
                cells.push(cell)?;
            }
        }
        Ok(())
    }

    // The blocks of the disk that are cut, but for those that were put since.
    fn add_cuts(&self, cells: &mut Vec<Cell>) -> Result<(), AllocError>
        ensures { OnOk result ((c : CellName) → is_cut self.now.cuts c ≡ true
            → is_stored self.now.blocks c ≡ true → is_touched self.now.touched c ≡ false
            → Contains cells.new.items c) }
    {
        for (object, first) in self.cuts.iter() {
            self.add_cut_blocks(*object, *first, cells)?;
        }
        Ok(())
    }

    // The cells that were put or erased.
    fn add_touched(&self, cells: &mut Vec<Cell>) -> Result<(), AllocError>
        ensures kept { (c : CellName) → Contains cells.old.items c → Contains cells.new.items c }
        ensures added { OnOk result ((c : CellName) → is_touched self.now.touched c ≡ true
            → Contains cells.new.items c) }
    {
        for (_, cell) in self.touched.iter() {
            cells.push(*cell)?;
        }
        Ok(())
    }

    // The cells of which something was made, each once: the blocks of the disk from a cut on, and
    // the cells that were put or erased.
    fn cells(&self, alloc: Global) -> Result<Vec<Cell>, AllocError>
        ensures { IfOk result (λ cells. AreAll self.now cells.items) }
    {
        let mut cells = Vec::new(alloc);
        self.add_cuts(&mut cells)?;
        self.add_touched(&mut cells)?;
        Ok(cells)
    }

    // Adds what was made of a cell, where something was.
    fn add_made(
        &mut self,
        alloc: Global,
        cell: Cell,
        changes: &mut Vec<Change>,
    ) -> Result<(), AllocError>
        ensures added { OnOk result (changes.new.items
            ≡ changes.old.items ++ made_change cell (made_of self.old cell)) }
        ensures same { Stays self.old self.new }
        ensures blocks { self.new.blocks ≡ self.old.blocks }
    {
        match self.find(alloc, cell)? {
            Some(Some(value)) => changes.push(Change::put(alloc, cell, value)?)?,
            Some(None) => changes.push(Change::Erase { cell })?,
            None => {}
        }
        Ok(())
    }

    // What was made of these cells.
    fn made_of(&mut self, alloc: Global, cells: &[Cell]) -> Result<Vec<Change>, AllocError>
        ensures made { IfOk result (λ changes. changes.items ≡ made_changes self.old cells.now) }
        ensures same { Stays self.old self.new }
        ensures blocks { self.new.blocks ≡ self.old.blocks }
    {
        let mut changes = Vec::new(alloc);
        for cell in cells {
            self.add_made(alloc, *cell, &mut changes)?;
        }
        Ok(changes)
    }

    /// What was made of each cell since the last sync.
    pub fn changes(&mut self, alloc: Global) -> Result<Vec<Change>, AllocError>
        ensures made { IfOk result (λ changes. AreUnsynced self.old changes.items) }
        ensures same { Stays self.old self.new }
        ensures blocks { self.new.blocks ≡ self.old.blocks }
    {
        let cells = self.cells(alloc)?;
        self.made_of(alloc, &cells)
    }

    // The disk doesn't have the value any more that a change erases.
    fn forget_one(&mut self, change: &Change)
        ensures blocks { KeepsBlocks (change.now ∷ []) self.old self.new }
        ensures same { self.new ≡ record self.old { blocks = self.new.blocks } }
    {
        match change {
            Change::Erase { cell } => self.forget(*cell),
            Change::Put { .. } => {}
            Change::EraseFrom { .. } => {}
        }
    }

    /// The disk doesn't have the values any more that these changes erase.
    pub fn forget_erased(&mut self, changes: &[Change])
        ensures blocks { KeepsBlocks changes.now self.old self.new }
        ensures same { self.new ≡ record self.old { blocks = self.new.blocks } }
    {
        for change in changes {
            self.forget_one(change);
        }
    }

    /// All changes are on the disk.
    #[tactic(auto, unfolding(crate::specs::Unsynced::is_touched, crate::specs::Unsynced::is_cut))]
    pub fn clear(&mut self, alloc: Global)
        ensures nothing { IsNothing self.new }
        ensures blocks { self.new.blocks ≡ self.old.blocks }
    {
        self.values = MemCells::new(alloc);
        self.touched.clear();
        self.cuts.clear();
    }
}
