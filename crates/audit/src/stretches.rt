//! Stretches of objects, one for a thread after the other.

ghost use Rattle.std.specs.Prelude.{◌≤◌, length, IfOk};
ghost use Rattle.audit.specs.Stretches.{AreStretches};

use crate::picture::Portrait;
use std::alloc::{AllocError, Global};

// The most stretches, however many threads there are.
const MOST_STRETCHES: usize = 64;

// How many objects without slots take as long as a slot does.
const SLOT_LOAD: usize = 16;

// How many objects in a row count as if each were like the first: to look at them all takes longer
// than it spares.
const RUN: usize = 8;

/// The objects from a place on, and before another.
#[derive(Clone, Copy)]
pub(crate) struct Stretch {
    pub from: usize,
    pub to: usize,
}

/// How long the object at a place takes.
fn load_of(objects: &[Portrait], place: usize) -> usize {
    match objects.get(place) {
        Some(object) => {
            let slots = object.slots.as_slice().len();
            slots.saturating_mul(SLOT_LOAD).saturating_add(1)
        }
        None => 0,
    }
}

/// How long the objects up to each run's end take together.
fn loads_of(alloc: Global, objects: &[Portrait]) -> Result<Vec<usize>, AllocError> {
    let mut loads = Vec::new(alloc);
    let mut load: usize = 0;
    for run in 0..objects.len() / RUN {
        load = load.saturating_add(load_of(objects, run.saturating_mul(RUN)));
        loads.push(load)?;
    }
    Ok(loads)
}

/// The place where the objects before it take so long together, from a place on, among so many.
fn place_of_load(loads: &[usize], load: usize, from: usize, count: usize) -> usize
    requires { from ≤ count }
    ensures from { from ≤ result }
    ensures end { result ≤ count }
{
    let runs = loads.partition_point(|up_to| *up_to < load);
    runs.saturating_mul(RUN).min(count).max(from)
}

/// Stretches of objects that take about as long one as another.
pub(crate) fn stretches_of(
    alloc: Global,
    objects: &[Portrait],
    threads: usize,
) -> Result<Vec<Stretch>, AllocError>
    ensures { IfOk result (λ v. AreStretches 0 (length objects.now) v.items) }
{
    let loads = loads_of(alloc, objects)?;
    let count = threads.min(MOST_STRETCHES).max(1);
    let all = loads.as_slice().last().copied().unwrap_or(0);
    let share = (all / count).saturating_add(1);
    let mut stretches = Vec::new(alloc);
    let mut from = 0;
    for before in 1..count {
        let to = place_of_load(
            loads.as_slice(),
            share.saturating_mul(before),
            from,
            objects.len(),
        );
        stretches.push(Stretch { from, to })?;
        from = to;
    }
    stretches.push(Stretch {
        from,
        to: objects.len(),
    })?;
    Ok(stretches)
}

/// The place where the second half of some stretches begins, among so many objects.
pub(crate) fn middle_of(stretches: &[Stretch], count: usize) -> usize
    ensures { result ≤ count }
{
    match stretches.get(stretches.len() / 2) {
        Some(stretch) => stretch.from.min(count),
        None => 0,
    }
}
