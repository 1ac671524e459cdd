//! The folders of servers, beside what a store keeps in them.

ghost use Rattle.std.specs.Prelude.{◌≡◌, ◌≤◌, ◌⊎◌, ℕ, List, OnOk, OnErr, Err};
ghost use Rattle.harp_types.specs.Streams.{Rose};
ghost use Rattle.harpd.specs.Folders.{Done, with_entered, with_left, with_made};

use harp_store::{Store, StoreFault};
use std::alloc::Global;

/// The folders of servers: whether one is made, which is done on purpose, the disk in it, and what
/// tells its server to stop. A call that is refused fails.
pub trait Folders {
    // What was done to folders so far, in order.
    ghost done: { Self → List Done };

    // How many calls failed, which never falls.
    ghost faults: { Self → ℕ };

    /// Takes a folder for a server that is started, and attaches its disk to it. It is refused
    /// where it wasn't made for one.
    fn enter<D: Store>(
        &mut self,
        alloc: Global,
        folder: &str,
        disk: &mut D,
    ) -> Result<(), StoreFault>
        ensures entered { OnOk result (done self.new ≡ with_entered folder.now (done self.old)) }
        ensures refused { OnErr result (done self.new ≡ done self.old) }
        ensures kept { D.told disk.new ≡ D.told disk.old }
        ensures rose { result ≡ Err StoreFault.Failed → Rose (faults self.old) (faults self.new)
            ⊎ Rose (D.faults disk.old) (D.faults disk.new) }
        ensures count { faults self.old ≤ faults self.new }
        ensures disk_count { D.faults disk.old ≤ D.faults disk.new };

    /// Makes a folder for a server that never ran. It is refused where one has run there.
    fn make(&mut self, alloc: Global, folder: &str) -> Result<(), StoreFault>
        ensures made { OnOk result (done self.new ≡ with_made folder.now (done self.old)) }
        ensures refused { OnErr result (done self.new ≡ done self.old) }
        ensures rose { result ≡ Err StoreFault.Failed → Rose (faults self.old) (faults self.new) }
        ensures count { faults self.old ≤ faults self.new };

    /// Takes away what told the server of a folder to stop.
    fn leave(&mut self, alloc: Global, folder: &str) -> Result<(), StoreFault>
        ensures left { OnOk result (done self.new ≡ with_left folder.now (done self.old)) }
        ensures refused { OnErr result (done self.new ≡ done self.old) }
        ensures rose { result ≡ Err StoreFault.Failed → Rose (faults self.old) (faults self.new) }
        ensures count { faults self.old ≤ faults self.new };
}
