//! What a server of a played group shows.

ghost use Rattle.std.specs.Prelude.{◌≡◌, IfOk, IfSome, None, OnOk, Some};
ghost use Rattle.harp_store.specs.Disk.{reads};
ghost use Rattle.node.specs.Wants.{Shows};
ghost use Rattle.shown.specs.Truth.{IsLowShown};
ghost use Rattle.world_host.specs.Shows.{HostShows, IsStill};
ghost use Rattle.world_rules.specs.Host.{IsRunning, disk_of, with_node};

use crate::host::Host;
use harp_store::SoundStore;
use node::{Node, NodeFault};
use shown::{Shown, Want};
use std::alloc::{AllocError, Global};

impl Host {
    /// Shows what is wanted of the server; nothing while it is down. Nothing changes but which
    /// cells its node keeps in memory.
    pub fn show(&mut self, alloc: Global, want: &Want) -> Result<Option<Shown>, AllocError>
        ensures me { self.new.me ≡ self.old.me }
        ensures shown { IfOk result (HostShows self.old want.now) }
        ensures low { IfOk result (λ o. IfSome o IsLowShown) }
        ensures still { OnOk result (IsStill self.old self.new) }
    {
        let Some(node) = self.node.take() else {
            return Ok(None);
        };
        self.show_by(alloc, node, want)
    }

    /// What the node that it had shows.
    fn show_by(
        &mut self,
        alloc: Global,
        mut node: Box<Node>,
        want: &Want,
    ) -> Result<Option<Shown>, AllocError>
        requires runs { IsRunning (disk_of self.old) node.value }
        requires down { self.old.node ≡ None }
        ensures me { self.new.me ≡ self.old.me }
        ensures shown { IfOk result (Shows node.value (Some (reads (disk_of self.old))) want.now) }
        ensures low { IfOk result (λ o. IfSome o IsLowShown) }
        ensures still { OnOk result (IsStill (with_node self.old node.value) self.new) }
    {
        let shown = node.show::<SoundStore>(alloc, want, &mut self.disk);
        self.disk.settle();
        match shown {
            Ok(shown) => {
                self.keep(node);
                Ok(shown)
            }
            Err(NodeFault::NoMemory) => Err(AllocError),
            Err(NodeFault::StoreFailed) => unreachable!(),
            Err(NodeFault::Halted) => unreachable!(),
        }
    }
}
