//! What a store has of which no call fails, and one with a stop.

ghost use Rattle.std.specs.Prelude.{length};
ghost use Rattle.harp_store.specs.Memory.{stored_of};
ghost use Rattle.harp_store.specs.Sound.{IsSound};
ghost use Rattle.harp_store.specs.Stopping.{IsStopping};

use crate::attempt::Attempt;
use crate::mem_store::MemStore;

/// A store in memory of which no call fails, unless memory runs out.
#[derive(Drop)]
pub struct SoundStore {
    pub(crate) store: MemStore,
    ghost sound: { IsSound store.failing },
}

/// A store in memory with a stop: so many calls that change it pass, and then every call fails. It
/// knows the call that failed first.
#[derive(Drop)]
pub struct StoppingStore {
    pub(crate) store: MemStore,
    /// How many calls that change it pass still.
    pub(crate) left: u64,
    /// The call that the stop came before.
    pub(crate) stopped: Option<Attempt>,
    /// How many calls failed.
    pub(crate) faults: u64,
    ghost sound: { IsSound store.failing },
    ghost stops: { IsStopping left stopped faults (length (stored_of store).past) },
}
