//! What a run comes to.

ghost use Rattle.std.specs.Prelude.{◌≡◌, List, IfOk};
ghost use Rattle.trace_types.specs.declared.step.Step.{Step};
ghost use Rattle.sweep.specs.declared.summary.Summary.{Summary};

use crate::schedule::Schedule;
use crate::summary::Summary;
use std::alloc::{AllocError, Global};

/// Plays schedules.
pub trait Player {
    // The one summary of each list of steps.
    ghost summary_of: { Self → List Step → Summary };

    /// Plays these steps from the start. Each is let go once it is taken.
    fn play(&self, alloc: Global, steps: Schedule) -> Result<Summary, AllocError>
        ensures { IfOk result (λ summary. summary ≡ summary_of self.now steps) };
}
