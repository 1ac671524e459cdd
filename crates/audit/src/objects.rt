//! The objects of a picture by their numbers, and the ways up from them.

ghost use Rattle.std.specs.Prelude.{◌≡◌, ℕ, ◌+◌, List, length, IsTrue, Some};
ghost use Rattle.std.specs.Option.{option_copied};
ghost use Rattle.audit.specs.Entries.{AreByNumber, AreWays, IsPlace, IsWay};
ghost use Rattle.audit.specs.Flaws.{above, portrait_at};

use crate::attributes::attributes_in;
use crate::picture::Portrait;

/// Whether the object of a number has a place.
fn stands_at(objects: &[Portrait], place: usize, number: u32) -> bool
    requires { AreByNumber objects.now }
    ensures { IsTrue result → IsPlace objects.now number (Some place) }
{
    if place >= objects.len() {
        return false;
    }
    objects[place].number == number
}

/// The place of the object of a number: it is the number before, where each number up to it is that
/// of an object.
pub(crate) fn place_of(objects: &[Portrait], number: u32) -> Option<usize>
    requires { AreByNumber objects.now }
    ensures { IsPlace objects.now number result }
{
    let likely = (number as usize).saturating_sub(1);
    if stands_at(objects, likely, number) {
        return Some(likely);
    }
    match objects.binary_search_by_key(&number, |object| object.number) {
        Ok(place) => Some(place),
        Err(_) => None,
    }
}

/// The object of a number.
pub(crate) fn at(objects: &[Portrait], number: u32) -> Option<&Portrait>
    requires { AreByNumber objects.now }
    ensures { option_copied result ≡ portrait_at objects.now number }
{
    match place_of(objects, number) {
        Some(place) => Some(&objects[place]),
        None => None,
    }
}

/// The number one step up from an object by the stored parents.
pub(crate) fn above(object: &Portrait) -> u32
    ensures { (objects : List Portrait)
        → portrait_at objects object.now.number ≡ Some object.now
        → result ≡ above objects object.now.number }
{
    if object.number == 1 {
        1
    } else {
        attributes_in(&object.object).parent
    }
}

/// The number twice as many steps up as this one, by the numbers so many steps up from each object.
pub(crate) fn twice(objects: &[Portrait], ways: &[u32], way: u32) -> u32
    requires order { AreByNumber objects.now }
    requires length { length ways.now ≡ length objects.now }
    ensures { (steps n : ℕ) → AreWays steps objects.now ways.now
        → IsWay steps objects.now n way → IsWay (steps + steps) objects.now n result }
{
    if way <= 1 {
        return way;
    }
    match place_of(objects, way) {
        Some(place) => ways[place],
        None => 0,
    }
}
