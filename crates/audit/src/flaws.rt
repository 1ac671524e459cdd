//! The flaws of an object.

ghost use Rattle.std.specs.Prelude.{◌≡◌, ℕ, ◌+◌, ◌==◌, ◌≤◌, not, List, Option, Some, IfOk, length};
ghost use Rattle.std.specs.Prelude.{map, min, count_by, if◌then◌else◌};
ghost use Rattle.std.specs.List.{list_any};
ghost use Rattle.std.specs.Option.{option_map};
ghost use Rattle.file_tree.specs.declared.object.Slot.{Slot};
ghost use Rattle.file_tree.specs.Tries.{entry_name, is_dot, is_dot_dot, is_odd_byte};
ghost use Rattle.audit.specs.Entries.{AreByNumber, IsNamed, is_held, most_names};
ghost use Rattle.audit.specs.Flaws.{ancestor, entry_in, entry_of_value, first_flaw, has_bad_slot};
ghost use Rattle.audit.specs.Flaws.{has_odd_form, has_twins, has_wrong_holder, has_wrong_links};
ghost use Rattle.audit.specs.Flaws.{has_wrong_parent, is_bad_entry, is_directory as is_dir};
ghost use Rattle.audit.specs.Flaws.{is_large_file, is_lost, is_odd_directory, is_odd_kind};
ghost use Rattle.audit.specs.Flaws.{is_odd_link, is_refused, links_by, names_directory, names_of};
ghost use Rattle.audit.specs.Flaws.{portrait_at, slots_in};
ghost use Rattle.audit.specs.Pictures.{attributes};

use crate::attributes::{Attributes, attributes_in, is_directory};
use crate::entries::Names;
use crate::flaw::Flaw;
use crate::objects::at;
use crate::picture::Portrait;
use harp_cells::Value;
use harp_types::{Kind, LARGEST_FILE, LONGEST_NAME, LONGEST_PATH, SLOT_SIZE};
use std::alloc::{AllocError, Global};
use std::collections::BTreeSet;

// The highest mode.
const MODE_BITS: u16 = 0o7777;

// ---- form

fn is_large_file(a: &Attributes) -> bool
    ensures { result ≡ is_large_file a.now }
{
    a.size > LARGEST_FILE || a.slots != 0
}

fn is_odd_directory(a: &Attributes) -> bool
    ensures { result ≡ is_odd_directory a.now }
{
    u64::from(a.size) != u64::from(SLOT_SIZE) * u64::from(a.slots)
}

fn is_odd_link(a: &Attributes, text: u32) -> bool
    ensures { result ≡ is_odd_link a.now text }
{
    text != a.size || text as usize > LONGEST_PATH || a.slots != 0
}

/// Whether these are no attributes of an object of their kind.
fn is_odd_kind(a: &Attributes, text: u32) -> bool
    ensures { result ≡ is_odd_kind a.now.kind a.now text }
{
    match a.kind {
        None => true,
        Some(Kind::Regular) => is_large_file(a),
        Some(Kind::Directory) => is_odd_directory(a),
        Some(Kind::Link) => is_odd_link(a, text),
    }
}

/// Whether the attributes are those of no object.
fn has_odd_form(x: &Portrait) -> bool
    ensures { result ≡ has_odd_form x.now }
{
    let a = attributes_in(&x.object);
    if a.mode > MODE_BITS {
        return true;
    }
    is_odd_kind(&a, x.text)
}

// ---- slots

/// The number and the name of the entry in a slot.
fn entry_in(slot: &Option<Value>) -> Option<(u32, &[u8])>
    ensures { option_map (λ e. record { name = e.1.now; number = e.0 }) result
        ≡ entry_in slot.now }
{
    match slot {
        Some(Value::Slot { object, name }) => Some((*object, name.as_slice())),
        Some(
            Value::Meta { .. }
            | Value::Object { .. }
            | Value::Unformed { .. }
            | Value::Block { .. }
            | Value::Client { .. }
            | Value::Saved { .. }
            | Value::SavedCred { .. },
        )
        | None => None,
    }
}

fn is_odd_byte(byte: u8) -> bool
    ensures { result ≡ is_odd_byte byte }
{
    byte == b'/' || byte == 0
}

fn has_odd_byte(name: &[u8]) -> bool
    ensures { result ≡ list_any is_odd_byte name.now }
{
    name.iter().any(|byte| is_odd_byte(*byte))
}

fn is_dot(name: &[u8]) -> bool
    ensures { result ≡ is_dot name.now }
{
    name == b".".as_slice()
}

fn is_dot_dot(name: &[u8]) -> bool
    ensures { result ≡ is_dot_dot name.now }
{
    name == b"..".as_slice()
}

/// Whether no entry may have the name.
fn is_refused_name(name: &[u8]) -> bool
    ensures { result ≡ is_refused (entry_name name.now) }
{
    if name.len() > LONGEST_NAME {
        return true;
    }
    if name.is_empty() {
        return true;
    }
    if has_odd_byte(name) {
        return true;
    }
    if is_dot(name) {
        return true;
    }
    is_dot_dot(name)
}

/// Whether a slot has an entry that names no object, or the root, or by a name that none may have.
fn is_bad_slot(objects: &[Portrait], slot: &Option<Value>) -> bool
    requires { AreByNumber objects.now }
    ensures { result ≡ is_bad_entry objects.now (entry_in slot.now) }
{
    let Some((number, name)) = entry_in(slot) else {
        return false;
    };
    if number == 1 {
        return true;
    }
    if at(objects, number).is_none() {
        return true;
    }
    is_refused_name(name)
}

/// Whether a name stands in two slots.
fn has_twins(alloc: Global, slots: &[Option<Value>]) -> Result<bool, AllocError>
    ensures { IfOk result (λ b. b ≡ has_twins (map entry_in slots.now)) }
{
    let mut seen = BTreeSet::new(alloc);
    for slot in slots {
        match entry_in(slot) {
            None => (),
            Some((_, name)) => {
                if !seen.insert(name)? {
                    return Ok(true);
                }
            }
        }
    }
    Ok(false)
}

/// Whether a slot of an object has such an entry.
fn has_bad_entry(objects: &[Portrait], x: &Portrait) -> bool
    requires { AreByNumber objects.now }
    ensures { result ≡ list_any (is_bad_entry objects.now) (slots_in x.now) }
{
    for slot in x.slots.as_slice() {
        if is_bad_slot(objects, slot) {
            return true;
        }
    }
    false
}

fn has_bad_slot(alloc: Global, objects: &[Portrait], x: &Portrait) -> Result<bool, AllocError>
    requires { AreByNumber objects.now }
    ensures { IfOk result (λ b. b ≡ has_bad_slot objects.now x.now) }
{
    if has_bad_entry(objects, x) {
        return Ok(true);
    }
    has_twins(alloc, x.slots.as_slice())
}

// ---- links

/// Whether an entry names a directory.
fn names_directory(objects: &[Portrait], slot: &Option<Value>) -> bool
    requires { AreByNumber objects.now }
    ensures { result ≡ names_directory objects.now (entry_in slot.now) }
{
    let Some((number, _)) = entry_in(slot) else {
        return false;
    };
    match at(objects, number) {
        Some(x) => is_directory(attributes_in(&x.object).kind),
        None => false,
    }
}

/// Whether there are two more links than subdirectories.
fn are_two_more(links: u32, subdirectories: usize) -> bool
    ensures { result ≡ (links == 2 + subdirectories) }
{
    if links < 2 {
        return false;
    }
    (links - 2) as usize == subdirectories
}

fn subdirectories(objects: &[Portrait], x: &Portrait) -> usize
    requires { AreByNumber objects.now }
    ensures { result ≡ count_by (names_directory objects.now) (slots_in x.now) }
{
    x.slots
        .as_slice()
        .iter()
        .filter(|slot| names_directory(objects, slot))
        .count()
}

/// Whether the stored links are those that are computed; so many entries name the object.
fn has_right_links(objects: &[Portrait], x: &Portrait, count: usize) -> bool
    requires order { AreByNumber objects.now }
    requires count { count ≡ min (names_of objects.now x.now.number) most_names }
    ensures { result ≡ ((attributes x.now.object).links == links_by objects.now x.now) }
{
    let a = attributes_in(&x.object);
    if is_directory(a.kind) {
        are_two_more(a.links, subdirectories(objects, x))
    } else {
        a.links as usize == count
    }
}

fn has_wrong_links(objects: &[Portrait], x: &Portrait, count: usize) -> bool
    requires order { AreByNumber objects.now }
    requires count { count ≡ min (names_of objects.now x.now.number) most_names }
    ensures { result ≡ has_wrong_links objects.now x.now }
{
    if !has_right_links(objects, x, count) {
        return true;
    }
    if x.number != 1 && count == 0 {
        return true;
    }
    is_directory(attributes_in(&x.object).kind) && count > 1
}

// ---- parents

/// Whether the stored parent is wrong; an entry of it names the object, or none does.
fn has_wrong_parent(x: &Portrait, held: bool) -> bool
    ensures { (objects : List Portrait) → held ≡ is_held objects x.now
        → result ≡ has_wrong_parent objects x.now }
{
    let a = attributes_in(&x.object);
    if !is_directory(a.kind) {
        return a.parent != 0;
    }
    if x.number == 1 {
        return a.parent != 1;
    }
    !held
}

/// The first flaw of an object, by what the entries of all directories say of it and the number as
/// many steps up from it as there are objects.
pub(crate) fn first_flaw(
    alloc: Global,
    objects: &[Portrait],
    names: Names,
    way: u32,
    x: &Portrait,
) -> Result<Option<Flaw>, AllocError>
    requires order { AreByNumber objects.now }
    requires names { IsNamed objects.now x.now names }
    requires way { (way == 1) ≡ (ancestor (length objects.now) objects.now x.now.number == 1) }
    ensures { IfOk result (λ flaw. flaw ≡ first_flaw objects.now x.now) }
{
    if has_odd_form(x) {
        return Ok(Some(Flaw::Form));
    }
    if has_bad_slot(alloc, objects, x)? {
        return Ok(Some(Flaw::Slot));
    }
    if has_wrong_links(objects, x, names.count) {
        return Ok(Some(Flaw::Links));
    }
    if has_wrong_parent(x, names.held) {
        return Ok(Some(Flaw::Parent));
    }
    if is_directory(attributes_in(&x.object).kind) && way != 1 {
        return Ok(Some(Flaw::Lost));
    }
    Ok(None)
}
