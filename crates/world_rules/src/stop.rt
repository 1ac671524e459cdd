//! A stop that is armed at a server.

use harp_store::Pick;

/// A stop: so many calls that change the disk pass in the server's next step, and then it falls. Of
/// what isn't synced by then the pick tells what stays.
#[derive(Drop)]
pub struct Stop {
    pub calls: u64,
    pub pick: Pick,
}
