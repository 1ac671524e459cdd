//! What the entries of directories say of each object.

ghost use Rattle.std.specs.Prelude.{◌≡◌, ◌+◌, ◌<◌, ◌++◌, ◌∷◌, [], ◌==◌, ◌||◌, ℕ, List, IfOk, Some};
ghost use Rattle.std.specs.Prelude.{length, min};
ghost use Rattle.audit.specs.Entries.{AreByNumber, AreNamed, IsPlace, entries_by, entries_in};
ghost use Rattle.audit.specs.Entries.{entry_at, most_names, number_named};
ghost use Rattle.audit.specs.Flaws.{entry_in, entry_of_value};
ghost use Rattle.audit.specs.Pictures.{attributes};

use crate::attributes::{attributes_in, is_directory};
use crate::objects::place_of;
use crate::picture::Portrait;
use harp_cells::Value;
use std::alloc::{AllocError, Global};

/// What entries say of an object: how many name it, as far as a usize counts, and whether the
/// directory of one is its stored parent.
#[derive(Clone, Copy)]
pub(crate) struct Names {
    pub count: usize,
    pub held: bool,
}

/// The number that a slot's value names.
fn number_in(value: &Value) -> Option<u32>
    ensures { result ≡ number_named (entry_of_value value.now) }
{
    match value {
        Value::Slot { object, .. } => Some(*object),
        Value::Meta { .. }
        | Value::Object { .. }
        | Value::Unformed { .. }
        | Value::Block { .. }
        | Value::Client { .. }
        | Value::Saved { .. }
        | Value::SavedCred { .. } => None,
    }
}

/// The number that the entry in a slot names.
fn number_of(slot: &Option<Value>) -> Option<u32>
    ensures { result ≡ number_named (entry_in slot.now) }
{
    match slot {
        Some(value) => number_in(value),
        None => None,
    }
}

/// What these entries and one more of a directory say.
fn one_more(object: &Portrait, dir: u32, names: Names) -> Names
    ensures count { result.count ≡ min (names.count + 1) most_names }
    ensures held { result.held ≡ (names.held || (dir == (attributes object.now.object).parent)) }
{
    Names {
        count: names.count.saturating_add(1),
        held: names.held || dir == attributes_in(&object.object).parent,
    }
}

/// Counts an entry of a directory for the object at a place.
fn count_at(objects: &[Portrait], place: usize, dir: u32, names: &mut Vec<Names>)
    requires { place < length objects.now }
    ensures { (entries : List (ℕ × ℕ)) (number : ℕ) → AreByNumber objects.now
        → IsPlace objects.now number (Some place) → AreNamed objects.now entries names.old.items
        → AreNamed objects.now (entries ++ (number, dir) ∷ []) names.new.items }
{
    if place >= names.len() {
        return;
    }
    names[place] = one_more(&objects[place], dir, names[place]);
}

/// Counts an entry of a directory for the object that it names.
fn count_name(objects: &[Portrait], dir: u32, number: u32, names: &mut Vec<Names>)
    requires { AreByNumber objects.now }
    ensures { (entries : List (ℕ × ℕ)) → AreNamed objects.now entries names.old.items
        → AreNamed objects.now (entries ++ (number, dir) ∷ []) names.new.items }
{
    match place_of(objects, number) {
        Some(place) => count_at(objects, place, dir, names),
        None => (),
    }
}

/// Counts the entry in a slot of a directory.
fn count_entry(objects: &[Portrait], dir: u32, slot: &Option<Value>, names: &mut Vec<Names>)
    requires { AreByNumber objects.now }
    ensures { (entries : List (ℕ × ℕ)) → AreNamed objects.now entries names.old.items
        → AreNamed objects.now (entries ++ entry_at dir (entry_in slot.now)) names.new.items }
{
    match number_of(slot) {
        Some(number) => count_name(objects, dir, number, names),
        None => (),
    }
}

/// Counts the entries of an object, if it is a directory.
fn count_entries(objects: &[Portrait], object: &Portrait, names: &mut Vec<Names>)
    requires { AreByNumber objects.now }
    ensures { (entries : List (ℕ × ℕ)) → AreNamed objects.now entries names.old.items
        → AreNamed objects.now (entries ++ entries_by object.now) names.new.items }
{
    if !is_directory(attributes_in(&object.object).kind) {
        return;
    }
    for slot in object.slots.as_slice() {
        count_entry(objects, object.number, slot, names);
    }
}

/// What the entries of some directories say of each object.
pub(crate) fn names_by(
    alloc: Global,
    objects: &[Portrait],
    some: &[Portrait],
) -> Result<Vec<Names>, AllocError>
    requires { AreByNumber objects.now }
    ensures { IfOk result (λ v. AreNamed objects.now (entries_in some.now) v.items) }
{
    let none = Names {
        count: 0,
        held: false,
    };
    let mut names = Vec::from_elem(alloc, none, objects.len())?;
    for object in some {
        count_entries(objects, object, &mut names);
    }
    Ok(names)
}

/// What entries say together that say these apart.
pub(crate) fn together(low: Names, high: Names) -> Names
    ensures count { result.count ≡ min (low.count + high.count) most_names }
    ensures held { result.held ≡ (low.held || high.held) }
{
    Names {
        count: low.count.saturating_add(high.count),
        held: low.held || high.held,
    }
}
