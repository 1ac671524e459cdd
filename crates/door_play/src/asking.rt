//! The steps of a door.

ghost use Rattle.std.specs.Prelude.{◌≡◌, ◌%◌, ◌==◌, IfOk};
ghost use Rattle.door_play.specs.Steps.{opening, upkeep};

use harp_types::ServerId;
use std::alloc::{AllocError, Global};
use trace_types::Step;

/// The number of calls between two upkeeps.
const UPKEEP: u64 = 64;

/// The steps that open view 1.0.
pub fn opening_steps(alloc: Global) -> Result<Vec<Step>, AllocError>
    ensures { IfOk result (λ steps. steps.items ≡ opening) }
{
    let mut steps = Vec::new(alloc);
    steps.push(Step::Suspect {
        server: ServerId::Zero,
    })?;
    steps.push(Step::Pump { among: None })?;
    steps.push(Step::Advance { millis: 2050 })?;
    steps.push(Step::Tick {
        server: ServerId::Zero,
    })?;
    steps.push(Step::Pump { among: None })?;
    Ok(steps)
}

/// The steps by which the servers bring their disks up to what is committed behind others.
pub fn upkeep_steps(alloc: Global) -> Result<Vec<Step>, AllocError>
    ensures { IfOk result (λ steps. steps.items ≡ upkeep) }
{
    let mut steps = Vec::new(alloc);
    steps.push(Step::Tick {
        server: ServerId::Zero,
    })?;
    steps.push(Step::Pump { among: None })?;
    steps.push(Step::Apply {
        server: ServerId::Zero,
        most: 64,
    })?;
    steps.push(Step::Apply {
        server: ServerId::One,
        most: 64,
    })?;
    steps.push(Step::Flush {
        server: ServerId::Zero,
    })?;
    steps.push(Step::Flush {
        server: ServerId::One,
    })?;
    steps.push(Step::Tick {
        server: ServerId::Zero,
    })?;
    steps.push(Step::Pump { among: None })?;
    Ok(steps)
}

/// Whether an upkeep stands behind the call with this number.
pub fn is_upkept(number: u64) -> bool
    ensures { result ≡ (number % 64 == 0) }
{
    number % UPKEEP == 0
}
