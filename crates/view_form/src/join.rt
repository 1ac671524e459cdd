//! What a server tells when it joins a view.

use harp_types::{Held, ViewNo};
use promise::Deadline;

/// What a Join tells of its sender: what it has, the view that it accepted last, the numbers of
/// its log, and until when it may have promised. A lost server tells its LB for each of the four
/// numbers, and one without a log 0.
#[derive(Clone, Copy)]
pub struct JoinInfo {
    pub held: Held,
    pub accepted: ViewNo,
    pub base: u64,
    pub lb: u64,
    pub cp: u64,
    pub top: u64,
    /// Up to when its promises may run.
    pub horizon: Deadline,
}
