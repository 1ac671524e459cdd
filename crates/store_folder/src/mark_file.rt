//! The file of the mark.

ghost use Rattle.std.specs.Prelude.{◌≡◌, ◌≤◌, ◌++◌, length, Option, Some, IfOk, IfSome, OnOk};
ghost use Rattle.harp_base.specs.Fields.{tag_at, u32_at, u32_bytes};
ghost use Rattle.harp_base.specs.Names.{ViewFits};
ghost use Rattle.harp_store.specs.Mark.{MarkFields, SavedNumbers};
ghost use Rattle.store_folder.specs.MarkFile.{FirstFit, IsMarkFile, LastFit, MarkFits, NumbersFit, OptionFits, SavedFits, fields_in, first_at, first_bytes, first_of, flag_number, flags, last_at, last_bytes, last_of, mark_bytes, numbers_at, numbers_bytes, numbers_of, old_last, option_at, option_bytes, ring_of, role_number, roles};

use crate::mark_fields::{FirstFields, LastFields, Numbers};
use harp_base::Misread;
use harp_base::fields::{below_at, byte_at, put_u32, put_u64, put_view, u32_at, view_at};
use harp_store::{Mark, OLD_RING, Saved};
use harp_types::{Role, ServerId};
use std::alloc::{AllocError, Global};

/// No file of a mark is longer.
pub const LONGEST_MARK: usize = 62;

// ---- reading

// Whether a field that may be absent is there, and the place after the flag.
fn flag_at(bytes: &[u8], at: usize) -> Result<(bool, usize), Misread>
    requires { at ≤ length bytes.now }
    ensures step { result ≡ tag_at flag_number flags bytes.now at }
    ensures within { IfOk result (λ x. x.1 ≤ length bytes.now) }
{
    let (number, next) = byte_at(bytes, at)?;
    match number {
        0 => Ok((false, next)),
        1 => Ok((true, next)),
        _ => Err(Misread::BadTag(at)),
    }
}

fn role_at(bytes: &[u8], at: usize) -> Result<(Role, usize), Misread>
    requires { at ≤ length bytes.now }
    ensures step { result ≡ tag_at role_number roles bytes.now at }
    ensures within { IfOk result (λ x. x.1 ≤ length bytes.now) }
{
    let (number, next) = byte_at(bytes, at)?;
    match number {
        0 => Ok((Role::Outside, next)),
        1 => Ok((Role::Leads(ServerId::Zero), next)),
        2 => Ok((Role::Leads(ServerId::One), next)),
        3 => Ok((Role::Leads(ServerId::Two), next)),
        4 => Ok((Role::Follows(ServerId::Zero), next)),
        5 => Ok((Role::Follows(ServerId::One), next)),
        6 => Ok((Role::Follows(ServerId::Two), next)),
        _ => Err(Misread::BadTag(at)),
    }
}

#[tactic(auto, unfolding(crate::specs::MarkFile::numbers_at))]
fn numbers_at(bytes: &[u8], at: usize) -> Result<(Numbers, usize), Misread>
    requires { at ≤ length bytes.now }
    ensures step { result ≡ numbers_at bytes.now at }
    ensures within { IfOk result (λ x. x.1 ≤ length bytes.now) }
{
    let (base, at) = below_at(1 << 62, bytes, at)?;
    let (cp, at) = below_at(1 << 62, bytes, at)?;
    let (top, at) = below_at(1 << 62, bytes, at)?;
    Ok((Numbers { base, cp, top }, at))
}

fn optional_numbers_at(bytes: &[u8], at: usize) -> Result<(Option<Numbers>, usize), Misread>
    requires { at ≤ length bytes.now }
    ensures step { result ≡ option_at numbers_at bytes.now at }
    ensures within { IfOk result (λ x. x.1 ≤ length bytes.now) }
{
    let (is_there, at) = flag_at(bytes, at)?;
    if is_there {
        let (numbers, at) = numbers_at(bytes, at)?;
        Ok((Some(numbers), at))
    } else {
        Ok((None, at))
    }
}

fn optional_u32_at(bytes: &[u8], at: usize) -> Result<(Option<u32>, usize), Misread>
    requires { at ≤ length bytes.now }
    ensures step { result ≡ option_at u32_at bytes.now at }
    ensures within { IfOk result (λ x. x.1 ≤ length bytes.now) }
{
    let (is_there, at) = flag_at(bytes, at)?;
    if is_there {
        let (number, at) = u32_at(bytes, at)?;
        Ok((Some(number), at))
    } else {
        Ok((None, at))
    }
}

#[tactic(auto, unfolding(crate::specs::MarkFile::first_at))]
fn first_at(bytes: &[u8], at: usize) -> Result<(FirstFields, usize), Misread>
    requires { at ≤ length bytes.now }
    ensures step { result ≡ first_at bytes.now at }
    ensures within { IfOk result (λ x. x.1 ≤ length bytes.now) }
{
    let (promised, at) = view_at(bytes, at)?;
    let (accepted, at) = view_at(bytes, at)?;
    let (role, at) = role_at(bytes, at)?;
    let (lb, at) = below_at(1 << 62, bytes, at)?;
    let (numbers, at) = optional_numbers_at(bytes, at)?;
    let first = FirstFields {
        promised,
        accepted,
        role,
        lb,
        numbers,
    };
    Ok((first, at))
}

#[tactic(auto, unfolding(crate::specs::MarkFile::last_at))]
fn last_at(bytes: &[u8], at: usize) -> Result<(LastFields, usize), Misread>
    requires { at ≤ length bytes.now }
    ensures step { result ≡ last_at bytes.now at }
    ensures within { IfOk result (λ x. x.1 ≤ length bytes.now) }
{
    let (longest, at) = optional_u32_at(bytes, at)?;
    let (ring, at) = optional_u32_at(bytes, at)?;
    Ok((LastFields { longest, ring }, at))
}

// What the file of an old mark lacks.
fn old_last(first: &FirstFields) -> LastFields
    ensures { result ≡ old_last first.now }
{
    let ring = match first.numbers {
        Some(_) => Some(OLD_RING),
        None => None,
    };
    LastFields {
        longest: None,
        ring,
    }
}

// The fields of a mark's file.
#[tactic(auto, unfolding(crate::specs::MarkFile::fields_in))]
fn fields_in(bytes: &[u8]) -> Option<(FirstFields, LastFields)>
    ensures { result ≡ fields_in bytes.now }
{
    let (first, at) = first_at(bytes, 0).ok()?;
    if at == bytes.len() {
        return Some((first, old_last(&first)));
    }
    let (last, end) = last_at(bytes, at).ok()?;
    if end == bytes.len() {
        Some((first, last))
    } else {
        None
    }
}

// The numbers of a saved log with the number of its cells, which come together.
fn saved_of(numbers: Option<Numbers>, ring: Option<u32>) -> Option<Option<Saved>>
    ensures found { IfSome result (λ s. (numbers_of s ≡ numbers) × (ring_of s ≡ ring)
        × OptionFits SavedFits s) }
    ensures only { (s : Option SavedNumbers) → OptionFits SavedFits s → numbers_of s ≡ numbers
        → ring_of s ≡ ring → result ≡ Some s }
{
    match (numbers, ring) {
        (None, None) => Some(None),
        (Some(n), Some(ring)) => Some(Some(Saved::of(n.base, n.cp, n.top, ring)?)),
        (None, Some(_)) | (Some(_), None) => None,
    }
}

// The mark of these fields.
fn mark_of(first: &FirstFields, last: &LastFields) -> Option<Mark>
    ensures found { IfSome result (λ m. (first_of m ≡ first.now) × (last_of m ≡ last.now)
        × (ViewFits m.promised → ViewFits m.accepted → MarkFits m)) }
    ensures only { (m : MarkFields) → MarkFits m → first_of m ≡ first.now
        → last_of m ≡ last.now → result ≡ Some m }
{
    let saved = saved_of(first.numbers, last.ring)?;
    Mark::of(
        first.promised,
        first.accepted,
        first.role,
        first.lb,
        last.longest,
        saved,
    )
}

/// The mark that a file holds, None where its bytes are no mark's.
pub fn read_mark_file(bytes: &[u8]) -> Option<Mark>
    // What is read is spelled so.
    ensures found { IfSome result (λ m. IsMarkFile bytes.now m × MarkFits m) }
    // What is spelled so is read.
    ensures only { (m : MarkFields) → MarkFits m → IsMarkFile bytes.now m → result ≡ Some m }
{
    let (first, last) = fields_in(bytes)?;
    mark_of(&first, &last)
}

// ---- writing

fn role_number(role: Role) -> u8
    ensures { result ≡ role_number role }
{
    match role {
        Role::Outside => 0,
        Role::Leads(place) => 1 + place.number(),
        Role::Follows(place) => 4 + place.number(),
    }
}

#[tactic(auto, unfolding(crate::specs::MarkFile::numbers_bytes))]
fn put_numbers(out: &mut Vec<u8>, saved: Option<Saved>) -> Result<(), AllocError>
    ensures value { OnOk result (out.new.items
        ≡ out.old.items ++ option_bytes numbers_bytes (numbers_of saved)) }
    ensures fits { OnOk result (OptionFits SavedFits saved) }
{
    match saved {
        Some(saved) => {
            out.push(1)?;
            put_u64(out, saved.base())?;
            put_u64(out, saved.cp())?;
            put_u64(out, saved.top())
        }
        None => {
            out.push(0)?;
            Ok(())
        }
    }
}

fn put_optional(out: &mut Vec<u8>, number: Option<u32>) -> Result<(), AllocError>
    ensures { OnOk result (out.new.items ≡ out.old.items ++ option_bytes u32_bytes number) }
{
    match number {
        Some(number) => {
            out.push(1)?;
            put_u32(out, number)
        }
        None => {
            out.push(0)?;
            Ok(())
        }
    }
}

#[tactic(auto, unfolding(crate::specs::MarkFile::first_bytes))]
fn put_first(out: &mut Vec<u8>, mark: &Mark) -> Result<(), AllocError>
    ensures { OnOk result (out.new.items ≡ out.old.items ++ first_bytes (first_of mark.now)) }
{
    put_view(out, mark.promised())?;
    put_view(out, mark.accepted())?;
    out.push(role_number(mark.role()))?;
    put_u64(out, mark.lb())?;
    put_numbers(out, mark.saved())
}

// The number of cells of a saved log.
fn ring_of(saved: Option<Saved>) -> Option<u32>
    ensures { result ≡ ring_of saved }
{
    match saved {
        Some(saved) => Some(saved.ring()),
        None => None,
    }
}

#[tactic(auto, unfolding(crate::specs::MarkFile::last_bytes))]
fn put_last(out: &mut Vec<u8>, mark: &Mark) -> Result<(), AllocError>
    ensures { OnOk result (out.new.items ≡ out.old.items ++ last_bytes (last_of mark.now)) }
{
    put_optional(out, mark.longest())?;
    put_optional(out, ring_of(mark.saved()))
}

/// The bytes of a mark's file.
pub fn write_mark_file(alloc: Global, mark: &Mark) -> Result<Vec<u8>, AllocError>
    ensures { IfOk result (λ bytes. bytes.items ≡ mark_bytes mark.now) }
{
    let mut bytes = Vec::with_capacity(alloc, LONGEST_MARK)?;
    put_first(&mut bytes, mark)?;
    put_last(&mut bytes, mark)?;
    Ok(bytes)
}
