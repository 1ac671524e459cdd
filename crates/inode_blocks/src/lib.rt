//! A file's bytes in blocks of 4096, some of which may be absent: reading, writing and cutting them
//! over a map of cells.
//!
//! # What is proved
//!
//! The bytes of a file in blocks of 4096, over any `CellRead`; absent blocks, and what is missing
//! at a block's end, are zeros.
//!
//! - Where the cells are told and hold a file's bytes: `read_bytes` gives those of a range, as far
//!   as the file goes (`range`); the changes of `write_bytes` and `cut_to` make the cells hold the
//!   bytes after the write or the cut, leave every other cell, and leave no block past the new end
//!   where none stood past the old one (`leads`).
//! - A write's changes are a Put of each block that the range meets, ascending (`puts`); a cut's
//!   are a Put of what is kept of the block that is cut, where more stands there, and then an
//!   EraseFrom, where whole blocks go (`cuts`).
//! - Over any cells: how many bytes are read (`size`), which blocks are put (`blocks`), that
//!   writing no bytes (`nothing`) and a cut to no smaller size (`still`) change nothing, that a cut
//!   has no other changes (`kinds`), and that the changes that stood before stay in front, also
//!   after a fault (`front`).
//! - `block_laws`: cells of a tree hold the bytes of its files and the texts of its links
//!   (`trees`), cells that hold a file's bytes stand for it (`files`), the blocks of other objects
//!   are exactly the tree's (`others`), no blocks are zeros (`holes`), an erasure from block 0 on
//!   leaves none (`erased`), and the Put of a new link's text makes its blocks (`texts`).
#![tactic(auto)]

mod block;
mod changes;
mod cutting;
mod laws;
mod reading;
mod writing;

pub use cutting::cut_to;
pub use laws::block_laws;
pub use reading::read_bytes;
pub use writing::write_bytes;
