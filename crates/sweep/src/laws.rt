//! What is so of every generated schedule.

ghost use Rattle.std.specs.Prelude.{ℕ, ◌<◌, ◌^◌, All};
ghost use Rattle.text_spelling.specs.StepFits.{StepFits};
ghost use Rattle.sweep.specs.Lines.{generated};

/// Each step of a schedule has its fields within their bounds, so that its line means this step.
pub fn steps_fit()
    ensures { (seed lines : ℕ) → lines < 2 ^ 32 → All StepFits (generated seed lines) }
{}
