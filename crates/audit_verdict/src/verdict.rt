//! What an audit says of a store.

use audit::Finding;
use tree_listing::Listing;

/// What an audit says of a store.
#[derive(Drop)]
pub enum Verdict {
    /// The disk alone has no tree: its server is no storer of its view, or no whole log was saved.
    Unsaved,
    /// The cells stand for no tree. What is wrong, by number.
    Unsound { findings: Vec<Finding> },
    /// The tree after the updates that were committed.
    Sound { listing: Listing },
}
