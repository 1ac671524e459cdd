//! The lowest numbers of packets that were never delivered.

ghost use Rattle.std.specs.Prelude.{◌≡◌, ◌<◌, List, Some, drop, length};
ghost use Rattle.std.specs.Option.{option_or};
ghost use Rattle.world_lines.specs.Due.{first_from, goes, lower, lowest};
ghost use Rattle.world_lines.specs.Kept.{AreFirst, way, with_way};
ghost use Rattle.world_lines.specs.Posted.{Posted, delivered_at};

use crate::kept::Kept;
use harp_types::{ServerId, Trio};

/// For each sender and each target the lowest number of a packet that was never delivered.
pub(crate) type Ways = Trio<Trio<Option<u64>>>;

/// Sets the number for one sender and one target.
fn set_way(due: &mut Ways, from: ServerId, to: ServerId, n: Option<u64>)
    ensures { due.new ≡ with_way due.old from to n }
{
    *due.get_mut(from).get_mut(to) = n;
}

/// The first packet from one server to another that was never delivered, of those from `start` on.
pub(crate) fn first_after(kept: &[Kept], start: usize, from: ServerId, to: ServerId) -> Option<u64>
    ensures { result ≡ first_from (goes from to) start (drop start kept.now) }
{
    for n in start..kept.len() {
        if kept[n].waits(from, to) {
            return Some(n as u64);
        }
    }
    None
}

/// A packet of this number was sent from one server to another, behind all others.
pub(crate) fn add_new(due: &mut Ways, from: ServerId, to: ServerId, n: u64)
    ensures { due.new ≡ with_way due.old from to (option_or (way due.old from to) (Some n)) }
{
    let first = due.get(from).get(to).or(Some(n));
    set_way(due, from, to, first);
}

/// Packet n of these came.
pub(crate) fn take_due(due: &mut Ways, kept: &[Kept], n: usize)
    requires { n < length kept.now }
    ensures { (ps : List Posted) → kept.now ≡ delivered_at ps n → AreFirst ps due.old
        → AreFirst kept.now due.new }
{
    let packet = &kept[n];
    let (from, to) = (packet.from(), packet.to());
    if *due.get(from).get(to) == Some(n as u64) {
        set_way(due, from, to, first_after(kept, n + 1, from, to));
        return;
    }
}

/// The lower of two numbers, where there are any.
pub(crate) fn lower(one: Option<u64>, other: Option<u64>) -> Option<u64>
    ensures { result ≡ lower one other }
{
    match one {
        None => other,
        Some(m) => match other {
            None => Some(m),
            Some(n) => Some(m.min(n)),
        },
    }
}

/// The lowest of three numbers, where there are any.
pub(crate) fn lowest(three: &Trio<Option<u64>>) -> Option<u64>
    ensures { result ≡ lowest three.now }
{
    lower(three.zero, lower(three.one, three.two))
}
