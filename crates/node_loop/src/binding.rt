//! Opening places of a link.

ghost use Rattle.std.specs.Prelude.{◌≡◌, ◌≤◌, Err};
ghost use Rattle.harp_types.specs.Streams.{Rose};
ghost use Rattle.node_link.specs.Traffic.{last_port};

use crate::fault::LoopFault;
use harp_types::ServerId;
use node_link::Link;

/// Opens a place.
pub fn open<L: Link>(place: ServerId, port: u16, link: &mut L) -> Result<(), LoopFault>
    requires { port ≤ last_port }
    ensures kept { L.told link.new ≡ L.told link.old }
    ensures rose { result ≡ Err LoopFault.LinkFailed
        → Rose (L.faults link.old) (L.faults link.new) }
    ensures count { L.faults link.old ≤ L.faults link.new }
    ensures disk { result ≡ Err LoopFault.StoreFailed → ⊥ }
{
    match link.bind(place, port) {
        Ok(()) => Ok(()),
        Err(_) => Err(LoopFault::LinkFailed),
    }
}

/// Opens the three places.
pub fn open_all<L: Link>(port: u16, link: &mut L) -> Result<(), LoopFault>
    requires { port ≤ last_port }
    ensures kept { L.told link.new ≡ L.told link.old }
    ensures rose { result ≡ Err LoopFault.LinkFailed
        → Rose (L.faults link.old) (L.faults link.new) }
    ensures count { L.faults link.old ≤ L.faults link.new }
    ensures disk { result ≡ Err LoopFault.StoreFailed → ⊥ }
{
    open(ServerId::Zero, port, link)?;
    open(ServerId::One, port, link)?;
    open(ServerId::Two, port, link)?;
    Ok(())
}
