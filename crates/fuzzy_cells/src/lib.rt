//! Cells of a disk that are each of some moment between two points of a history of records, and
//! what changes, crashes and the log over them make of such cells.
//!
//! # What is proved
//!
//! Cells of a disk that are each of some moment between two points of a history of records.
//! `fuzzy_laws`: changes of records made of fuzzy cells leave them fuzzy (`applied`); those of all
//! records that the cells may lack give each cell exactly, and so does the log over them (`exact`);
//! each moment on the way (`moments`) and what a crash leaves of several moments (`left`) is fuzzy;
//! cells that are alike stand for the same book (`stand`). `disk_laws`: a disk stays between its
//! mark and how far it may be, whatever is applied, cut off, synced, crashed or saved. It all
//! speaks of each cell but those of a saved log.
#![tactic(auto)]

mod laws;

pub use laws::{disk_laws, fuzzy_laws};
