//! A storer's part in a view that it hasn't accepted.

use crate::state::Joining;
use idle_log::{Form, Kept};
use volatile_log::Staged;

/// A storer's part in its promised view: what it keeps and what it joined with, the plan, and the
/// records that it pulled so far.
#[derive(Drop)]
pub(crate) struct Pull {
    pub(crate) kept: Kept,
    pub(crate) joining: Joining,
    pub(crate) form: Form,
    pub(crate) staged: Staged,
}
