//! What a server that stays up runs on.

/// What a server that stays up runs on: its link, its disk and its clock, who tells it to stop, and
/// who watches it.
#[derive(Drop)]
pub struct Outside<L, D, C, O, W> {
    pub link: L,
    pub disk: D,
    pub clock: C,
    pub orders: O,
    pub watcher: W,
}
