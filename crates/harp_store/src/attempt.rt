//! Calls that change a store.

use crate::mark::Mark;
use harp_cells::{Cell, SharedValue};

/// A call that would have changed a store.
#[derive(Drop)]
pub enum Attempt {
    Put { cell: Cell, value: SharedValue },
    Erase { cell: Cell },
    EraseFrom { object: u32, first: u32 },
    Sync,
    WriteMark { mark: Mark },
}
