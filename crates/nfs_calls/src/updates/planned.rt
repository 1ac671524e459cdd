//! What an update plans.

use crate::parts::totals::Totals;
use harp_cells::Change;
use harp_types::Reply;

/// The reply to an update, its changes of the tree's cells, in their order, but for the Put of the
/// totals, and the totals after it.
#[derive(Drop)]
pub struct Planned {
    pub reply: Reply,
    pub changes: Vec<Change>,
    pub totals: Totals,
}
