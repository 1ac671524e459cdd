//! What files are to a store.

ghost use Rattle.std.specs.Prelude.{◌≡◌, ◌≤◌, [], ◌∷◌, List, Option, option_map, length, IfOk, IfSome, OnOk, OnErr};
ghost use Rattle.store_folder.specs.Files.{Appended, AppendsPart, FileStep, IsHeld, Replaced, Removed, SyncedFolder, after_steps};

use harp_store::StoreFault;
use std::alloc::Global;

/// Files in folders: read whole, replaced whole, appended to, removed, synced. A path that is
/// missing is no fault where a file is read or removed.
pub trait DiskFiles {
    // The files that were replaced, appended to and removed and the folders that were synced, in
    // order, where they are told.
    ghost told: { Self → Option (List FileStep) };

    /// Makes a folder and those above it, where there are none.
    fn make_folder(&mut self, path: &str) -> Result<(), StoreFault>
        ensures kept { told self.new ≡ told self.old };

    /// Takes a folder for these files alone, in place of the one that they had, until they are let
    /// go. A folder that other files have is a failure.
    fn lock_folder(&mut self, path: &str) -> Result<(), StoreFault>
        ensures kept { told self.new ≡ told self.old };

    /// Whether there is a folder at a path.
    fn is_folder(&self, path: &str) -> bool;

    /// The names of what a folder has.
    fn names(&self, alloc: Global, path: &str) -> Result<Vec<String>, StoreFault>;

    /// The bytes of a file, None where there is none. One that is longer than the most is a
    /// failure.
    fn read(&self, alloc: Global, path: &str, most: usize) -> Result<Option<Vec<u8>>, StoreFault>
        ensures most { IfOk result (λ found. IfSome found (λ bytes. length bytes.items ≤ most)) }
        ensures held { IfOk result (λ found. IsHeld path.now (told self.now)
            (option_map (λ bytes. bytes.items) found)) };

    /// A file with these bytes takes the place of the one at a path, in one step and for sure: it
    /// is written at the path `next` first.
    fn replace(&mut self, next: &str, path: &str, bytes: &[u8]) -> Result<(), StoreFault>
        ensures replaced { OnOk result (told self.new
            ≡ after_steps (Replaced path.now bytes.now ∷ []) (told self.old)) }
        ensures kept { OnErr result (told self.new ≡ told self.old) };

    /// Puts bytes behind those of a file that is there, for sure. Where it fails, a first part of
    /// them may stand there.
    fn append(&mut self, path: &str, bytes: &[u8]) -> Result<(), StoreFault>
        ensures appended { OnOk result (told self.new
            ≡ after_steps (Appended path.now bytes.now ∷ []) (told self.old)) }
        ensures part { OnErr result (AppendsPart path.now bytes.now (told self.old)
            (told self.new)) };

    /// Removes a file, where there is one.
    fn remove(&mut self, path: &str) -> Result<(), StoreFault>
        ensures removed { OnOk result (told self.new
            ≡ after_steps (Removed path.now ∷ []) (told self.old)) }
        ensures kept { OnErr result (told self.new ≡ told self.old) };

    /// What was replaced and removed in a folder is so for sure.
    fn sync_folder(&mut self, path: &str) -> Result<(), StoreFault>
        ensures synced { OnOk result (told self.new
            ≡ after_steps (SyncedFolder path.now ∷ []) (told self.old)) }
        ensures kept { OnErr result (told self.new ≡ told self.old) };
}
