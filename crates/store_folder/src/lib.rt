//! A store over a folder of files.
//!
//! # What is proved
//!
//! `FolderStore` meets the store's clauses and tells nothing of its disk. It works on any
//! `DiskFiles`, which tell, where they can, what was done to files and folders, and so what a file
//! holds; `SystemFiles`, over which `new` makes it, tells nothing.
//!
//! - **Reads** give what was put or erased since the last sync (`put`, `erase`, `erase_from`),
//!   else what waits in the journal, and else the value that the cell's file spells, as it is told
//!   (`made`); `read_mark` gives the mark of its file (`held`). A `put` that fails did it or
//!   changed nothing of what is read (`part`).
//! - **A sync** that succeeds wrote one entry with what was made of each cell that isn't synced,
//!   each block from a cut on that the disk has among them: behind whole entries, or as a new
//!   journal with all that waits, begun once the folder was synced. Its changes wait then, and at
//!   most 32 files of cells were brought up to what waited for them (`all`, `Syncs`). One that
//!   fails did nothing, or a part of it; behind an entry that may be torn none is written (`some`,
//!   `SyncsPart`).
//! - **An attach** synced the folder, and takes up the whole entries of its journal, as it is
//!   told, in order, up to the first that is torn (`attached`); one that fails leaves no folder
//!   (`detached`). It leaves what isn't synced (`unsynced`).
//! - **The mark**: a `write_mark` that succeeds replaced its file and synced the folder
//!   (`written`); one that fails did nothing or replaced it (`part`).
//! - Which blocks the disk has: an `attach` and a `put` lose none, a `put` adds its own, and a
//!   `sync` leaves out only ones that it erased (`blocks`, `added`, `KeepsBlocks`); that an attach
//!   finds those of the folder and its journal isn't said.
//! - An error of files is want of memory exactly where it is of that kind, and else a failure
//!   (`failed`, `memory`). `read_mark_file` reads exactly what is spelled as a mark, also one of
//!   an old file, and `write_mark_file` spells it; so do `read_cell_file` and `write_cell_file` of
//!   a value; what is read of a saved record is exactly one of its form. Each cell's file has the
//!   path `in_folder` of its `cell_name`, and no more bytes are read of a file than one of its
//!   kind has.
#![tactic(auto)]

mod cell_file;
mod disk_files;
mod files;
mod folder;
mod journal;
mod mark_fields;
mod mark_file;
mod names;
mod store;
mod syncing;
mod trouble;
mod unsynced;

pub use cell_file::{LONGEST_FILE, read_cell_file, write_cell_file};
pub use disk_files::DiskFiles;
pub use files::SystemFiles;
pub use mark_file::{LONGEST_MARK, read_mark_file, write_mark_file};
pub use store::FolderStore;
pub use trouble::{Trouble, trouble_of};
