//! What reads and updates are made of.

pub mod directory;
pub mod file;
pub mod inode;
pub mod loss;
pub mod names;
pub mod new_entry;
pub mod permissions;
pub mod pushes;
pub mod space;
pub mod totals;
