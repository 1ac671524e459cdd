//! Stores: cells and a mark on a disk that may crash at any moment; and stores in memory, also as
//! the world of a schedule uses them.
//!
//! # What is proved
//!
//! What a disk is to the layers above. A store may tell its disk at each moment: what the last
//! sync left in each cell, what was put or erased since, in order, and the mark. A crash leaves of
//! each cell the synced value or any that was put or erased since, and the mark as it was last
//! written (`MayLeave`).
//!
//! - The trait `Store`: each call that changes the disk makes its step of it and one moment more;
//!   one that fails made it or didn't (`part`). Reads give what stands (`value`) and change
//!   nothing (`kept`). Failed comes only where the count of faults rose (`rose`), which never
//!   falls (`count`).
//! - `MemStore` is a store in memory, and exact besides: a call makes its step of what it tells,
//!   or nothing (`same`), and fails exactly where `stop_after` or `fail_read` said it (`fails`,
//!   `failing`). `erase_from` is one erasure of each block that was there, ascending. `crash`
//!   leaves the told disk with those unsynced changes that the pick keeps by their places, all
//!   synced (`stored`), which is what a crash may leave (`left`). `settle` drops the earlier
//!   moments, and lifts a stop that no call has failed by.
//! - Of a `SoundStore` no call fails, unless memory runs out: its count of faults stays 0. A
//!   `StoppingStore` lets so many calls pass that change it, and then every call fails. It meets
//!   all that a `Store` promises, and it tells its moments so numbered that the stop comes at one
//!   and the same number, whatever passes before it; the call that fails first is told as made, as
//!   a failed call may have been. So what is told after a run of calls says how many of them
//!   passed, and whether the stop cut the run. `lift` gives the store with all that passed, and
//!   `crash` what the pick keeps of it. The call that failed is in neither.
//! - `Mark` and `Saved` keep their bounds: no view accepted above the promised one, indices below
//!   2^62, a ring of 16,384 or 32,768, and a longest promise of 500 to 100,000 milliseconds where
//!   there is one. `Mark::first` is the first mark of a server's disk.
//! - `moment_laws`: what a crash at some moment of a run might have left, a disk may leave that
//!   has what each disk of the run has (`images`); two runs are one (`joined`). `change_laws`:
//!   reads give each cell as a change makes it (`reads`); what a crash in the middle of changes
//!   may leave (`hold`, `parts`, `moments`); a crash of a disk that is synced leaves what reads
//!   give (`synced`). `order_laws`: where no block has a number behind the last one, an erasure of
//!   blocks only adds one of each block that is there, ascending (`added`); changes that put
//!   nothing there, and syncs, keep a disk so (`changed`, `synced`).
#![tactic(auto)]

mod attempt;
mod failing;
mod laws;
mod layers;
mod mark;
mod mem_store;
mod memory;
mod sound;
mod stopping;
mod store;
mod stores;
mod table;

pub use attempt::Attempt;
pub use failing::{Failing, Stop};
pub use harp_types::{Bits, Pick};
pub use laws::{change_laws, moment_laws, order_laws};
pub use layers::Unsynced;
pub use mark::{LONGEST_PROMISE, Mark, OLD_RING, RING, SHORTEST_PROMISE, Saved};
pub use mem_store::MemStore;
pub use store::{Store, StoreFault};
pub use stores::{SoundStore, StoppingStore};
