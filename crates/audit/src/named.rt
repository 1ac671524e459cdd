//! The cells that a picture names.

ghost use Rattle.std.specs.Prelude.{◌≡◌, ℕ, Option, None, if◌then◌else◌};
ghost use Rattle.std.specs.Option.{option_copied};
ghost use Rattle.audit.specs.Entries.{AreByNumber};
ghost use Rattle.audit.specs.Flaws.{portrait_at};
ghost use Rattle.audit.specs.Named.{has_block, has_slot, is_own, kind_of_value, names, named_told};

use crate::attributes::{attributes_in, is_directory};
use crate::picture::Portrait;
use harp_cells::{Cell, CellFault, CellRead, Value};
use harp_types::BLOCK_SIZE;

/// Of other cells those that the objects of a picture name: that of the whole tree, and those of
/// the objects, of their slots, and of their blocks up to the end of what they hold. All others
/// are absent, and so is a cell with a value of another kind than its own.
#[derive(Drop)]
pub struct Named<'a, R> {
    under: &'a mut R,
    objects: &'a [Portrait],
    // Whether what was fetched last is shown.
    shown: bool,
    ghost order: { ∥ AreByNumber objects.now ∥₁ },
}

impl<'a, R: CellRead> Named<'a, R> {
    /// The cells that these objects name. Nothing is fetched.
    pub fn new(under: &'a mut R, objects: &'a [Portrait]) -> Named<'a, R>
        requires { AreByNumber objects.now }
        ensures same_reference { result.under.ghost_name ≡ under.entry.ghost_name }
        ensures under { result.under.now ≡ under.old }
        ensures objects { result.objects.now ≡ objects.now }
    {
        Named {
            under,
            objects,
            shown: false,
        }
    }
}

impl<R: CellRead> CellRead for Named<'_, R> {
    ghost cells = { λ s. named_told s.objects.now (R.cells s.under.now) };

    ghost found = { λ s. if s.shown then R.found s.under.now else None };

    ghost faults = { λ s. R.faults s.under.now };

    ghost Left = { ℕ × R.Left };

    ghost left = { λ s. (s.under.ghost_name, R.left s.under.now) };

    fn fetch(&mut self, cell: Cell) -> Result<(), CellFault> {
        self.shown = false;
        if !names(self.objects, cell) {
            return Ok(());
        }
        self.under.fetch(cell)?;
        self.shown = is_own(cell, self.under.value());
        Ok(())
    }

    fn value(&self) -> Option<&Value> {
        if self.shown { self.under.value() } else { None }
    }
}

/// The kind of the cells that have such values.
fn kind_of_value(value: &Value) -> u8
    ensures { result ≡ kind_of_value value.now }
{
    match value {
        Value::Meta { .. } => 1,
        Value::Object { .. } | Value::Unformed { .. } => 2,
        Value::Block { .. } => 3,
        Value::Slot { .. } => 4,
        Value::Client { .. } => 5,
        Value::Saved { .. } | Value::SavedCred { .. } => 6,
    }
}

/// Whether a cell has a value, of its own kind.
fn is_own(cell: Cell, value: Option<&Value>) -> bool
    ensures { result ≡ is_own cell (option_copied value.entry) }
{
    let (kind, _, _) = cell.key();
    match value {
        Some(value) => kind_of_value(value) == kind,
        None => false,
    }
}

/// Whether an object has a slot.
fn has_slot(object: Option<&Portrait>, slot: u32) -> bool
    ensures { result ≡ has_slot slot (option_copied object.entry) }
{
    match object {
        Some(object) => slot < attributes_in(&object.object).slots,
        None => false,
    }
}

/// Whether a file or a link has bytes in a block.
fn has_block(object: Option<&Portrait>, block: u32) -> bool
    ensures { result ≡ has_block block (option_copied object.entry) }
{
    let Some(object) = object else {
        return false;
    };
    let attributes = attributes_in(&object.object);
    if is_directory(attributes.kind) {
        return false;
    }
    u64::from(block) * u64::from(BLOCK_SIZE) < u64::from(attributes.size)
}

/// The object of a number, among objects by number.
fn object_at(objects: &[Portrait], number: u32) -> Option<&Portrait>
    ensures { AreByNumber objects.now → option_copied result ≡ portrait_at objects.now number }
{
    match objects.binary_search_by_key(&number, |object| object.number) {
        Ok(place) => Some(&objects[place]),
        Err(_) => None,
    }
}

/// Whether the whole tree has a cell, or one of these objects by number.
fn names(objects: &[Portrait], cell: Cell) -> bool
    ensures { AreByNumber objects.now → result ≡ names objects.now cell }
{
    match cell {
        Cell::Meta => true,
        Cell::Object { object } => object_at(objects, object).is_some(),
        Cell::Block { object, block } => has_block(object_at(objects, object), block),
        Cell::Slot { object, slot } => has_slot(object_at(objects, object), slot),
        Cell::Client { .. } | Cell::Saved { .. } => false,
    }
}
