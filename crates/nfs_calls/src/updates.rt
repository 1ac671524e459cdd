//! Updates.

mod create;
mod link;
mod make;
mod planned;
pub mod prepare;
mod relocate;
mod relocation;
mod remove;
mod rename;
mod set_attr;
mod write;
