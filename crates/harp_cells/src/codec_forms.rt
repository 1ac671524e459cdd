//! The forms of values, cells and changes, by their numbers in bytes.

ghost use Rattle.std.specs.Prelude.{◌≡◌, ◌≤◌, length, IfOk};
ghost use Rattle.harp_types.specs.Numbered.{value_with_number};
ghost use Rattle.harp_base.specs.Fields.{tag_at};
ghost use Rattle.harp_cells.specs.ValueBytes.{value_form, value_form_number, value_forms};
ghost use Rattle.harp_cells.specs.CellBytes.{cell_form, cell_form_number, cell_forms, change_form, change_form_number, change_forms};

use crate::cell::Cell;
use crate::change::Change;
use crate::value::Value;
use harp_base::Misread;
use harp_base::fields::byte_at;

#[derive(Clone, Copy, PartialEq, Eq)]
pub(crate) enum ValueForm {
    Meta,
    Object,
    Block,
    Slot,
    Client,
    Saved,
    SavedCred,
}

#[derive(Clone, Copy, PartialEq, Eq)]
pub(crate) enum CellForm {
    Meta,
    Object,
    Block,
    Slot,
    Client,
    Saved,
}

#[derive(Clone, Copy, PartialEq, Eq)]
pub(crate) enum ChangeForm {
    Put,
    Erase,
    EraseFrom,
}

impl ValueForm {
    fn of(number: u8) -> Option<ValueForm>
        ensures { result ≡ value_with_number value_form_number value_forms number }
    {
        match number {
            1 => Some(ValueForm::Meta),
            2 => Some(ValueForm::Object),
            3 => Some(ValueForm::Block),
            4 => Some(ValueForm::Slot),
            5 => Some(ValueForm::Client),
            6 => Some(ValueForm::Saved),
            7 => Some(ValueForm::SavedCred),
            _ => None,
        }
    }
}

impl CellForm {
    fn of(number: u8) -> Option<CellForm>
        ensures { result ≡ value_with_number cell_form_number cell_forms number }
    {
        match number {
            1 => Some(CellForm::Meta),
            2 => Some(CellForm::Object),
            3 => Some(CellForm::Block),
            4 => Some(CellForm::Slot),
            5 => Some(CellForm::Client),
            6 => Some(CellForm::Saved),
            _ => None,
        }
    }
}

impl ChangeForm {
    fn of(number: u8) -> Option<ChangeForm>
        ensures { result ≡ value_with_number change_form_number change_forms number }
    {
        match number {
            1 => Some(ChangeForm::Put),
            2 => Some(ChangeForm::Erase),
            3 => Some(ChangeForm::EraseFrom),
            _ => None,
        }
    }
}

pub(crate) fn value_form_at(bytes: &[u8], at: usize) -> Result<(ValueForm, usize), Misread>
    requires { at ≤ length bytes.now }
    ensures step { result ≡ tag_at value_form_number value_forms bytes.now at }
    ensures within { IfOk result (λ x. x.1 ≤ length bytes.now) }
{
    let (number, next) = byte_at(bytes, at)?;
    match ValueForm::of(number) {
        Some(form) => Ok((form, next)),
        None => Err(Misread::BadTag(at)),
    }
}

pub(crate) fn cell_form_at(bytes: &[u8], at: usize) -> Result<(CellForm, usize), Misread>
    requires { at ≤ length bytes.now }
    ensures step { result ≡ tag_at cell_form_number cell_forms bytes.now at }
    ensures within { IfOk result (λ x. x.1 ≤ length bytes.now) }
{
    let (number, next) = byte_at(bytes, at)?;
    match CellForm::of(number) {
        Some(form) => Ok((form, next)),
        None => Err(Misread::BadTag(at)),
    }
}

pub(crate) fn change_form_at(bytes: &[u8], at: usize) -> Result<(ChangeForm, usize), Misread>
    requires { at ≤ length bytes.now }
    ensures step { result ≡ tag_at change_form_number change_forms bytes.now at }
    ensures within { IfOk result (λ x. x.1 ≤ length bytes.now) }
{
    let (number, next) = byte_at(bytes, at)?;
    match ChangeForm::of(number) {
        Some(form) => Ok((form, next)),
        None => Err(Misread::BadTag(at)),
    }
}

/// The number of a value's form.
pub(crate) fn value_form_number(value: &Value) -> u8
    ensures { result ≡ value_form_number (value_form value.now) }
{
    match value {
        Value::Meta { .. } => 1,
        Value::Object { .. } | Value::Unformed { .. } => 2,
        Value::Block { .. } => 3,
        Value::Slot { .. } => 4,
        Value::Client { .. } => 5,
        Value::Saved { .. } => 6,
        Value::SavedCred { .. } => 7,
    }
}

/// The number of a cell's form.
pub(crate) fn cell_form_number(cell: Cell) -> u8
    ensures { result ≡ cell_form_number (cell_form cell) }
{
    match cell {
        Cell::Meta => 1,
        Cell::Object { .. } => 2,
        Cell::Block { .. } => 3,
        Cell::Slot { .. } => 4,
        Cell::Client { .. } => 5,
        Cell::Saved { .. } => 6,
    }
}

/// The number of a change's form.
pub(crate) fn change_form_number(change: &Change) -> u8
    ensures { result ≡ change_form_number (change_form change.now) }
{
    match change {
        Change::Put { .. } => 1,
        Change::Erase { .. } => 2,
        Change::EraseFrom { .. } => 3,
    }
}
