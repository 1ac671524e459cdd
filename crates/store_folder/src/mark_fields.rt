//! The fields of a mark's file.

use harp_types::{Role, ViewNo};

/// The numbers of a saved log, each below 2^62.
#[derive(Clone, Copy, PartialEq, Eq)]
pub struct Numbers {
    pub base: u64,
    pub cp: u64,
    pub top: u64,
}

/// The fields that the file of each mark has.
#[derive(Clone, Copy, PartialEq, Eq)]
pub struct FirstFields {
    pub promised: ViewNo,
    pub accepted: ViewNo,
    pub role: Role,
    pub lb: u64,
    pub numbers: Option<Numbers>,
}

/// The fields behind them, which the file of an old mark lacks.
#[derive(Clone, Copy, PartialEq, Eq)]
pub struct LastFields {
    pub longest: Option<u32>,
    pub ring: Option<u32>,
}
