//! A plain program that computes the outcome of each call of NFS version 2 (RFC 1094) over a list
//! of objects. It is a second opinion on the program over cells, nfs_calls, and shares no code with
//! it but the tests of permissions of file_tree.
//!
//! # What is proved
//!
//! The program that computes outcomes on a plain list of objects. `PlainTree::apply` gives exactly
//! the outcome's reply and tree (`ok`), and after want of memory, its only error, leaves the tree
//! (`err`). `Objects` counts the blocks in use and the slots that name each number, and an invariant
//! says that the counts are those of the objects. Inside, a `TreeError` is want of memory or the
//! status that a call is refused with. The checker of traces uses the tree, and tests compare with
//! it: it shares no code with `nfs_calls` but the tests of permissions, and must not.
#![tactic(auto)]

mod ancestry;
mod changes;
mod computed;
mod entries;
mod error;
mod fields;
mod files;
mod objects;
mod pages;
mod permissions;
mod plain;
mod reads;
mod rename;
mod tries;
mod writes;

pub use plain::PlainTree;
