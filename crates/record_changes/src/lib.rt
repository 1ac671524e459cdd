//! The changes that the record of an update has, as a function of the entries before it.
//!
//! # What is proved
//!
//! The changes of a record are a function of the entries up to its own. `record_laws`: the cells
//! after a history stand for its entries (`stand`), each record sets a cell at once (`once`), a
//! front of the entries has a front of the history (`fronts`), and what is planned in cells like
//! those after the entries is the next record's changes (`planned`).
#![tactic(auto)]

mod laws;

pub use laws::record_laws;
