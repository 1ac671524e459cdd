//! The changes of cells that each update of a file tree makes, and what they lead to.
//!
//! # What is proved
//!
//! Which cells each of the nine updates changes, in which order and to what (`specs/Table`); no
//! code. `update_laws`: these changes lead from cells that stand for a sound tree to cells that
//! stand for the tree of the outcome (`lead`), and changes of cells of the tree leave those of
//! clients and of saved logs (`others`).
#![tactic(auto)]

mod laws;

pub use laws::update_laws;
