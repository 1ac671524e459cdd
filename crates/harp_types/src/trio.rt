//! One value for each server.

ghost use Rattle.std.specs.Prelude.{◌≡◌};
ghost use Rattle.std.specs.Borrow.{sem};
ghost use Rattle.harp_types.specs.Trio.{value_of, LendsValue};

use crate::server::ServerId;

/// One value for each of the three servers.
#[derive(Clone, Copy, PartialEq, Eq, Drop)]
pub struct Trio<T> {
    pub zero: T,
    pub one: T,
    pub two: T,
}

impl<T> Trio<T> {
    /// The value of a server.
    pub fn get(&self, place: ServerId) -> &T
        ensures { result.now ≡ value_of self.now place }
    {
        match place {
            ServerId::Zero => &self.zero,
            ServerId::One => &self.one,
            ServerId::Two => &self.two,
        }
    }

    /// The value of a server, to change it; the others stay.
    pub fn get_mut(&mut self, place: ServerId) -> &mut T
        ensures* writes_back { sem 𝓛 (LendsValue T.row self.entry place result) }
        ensures value { result.now ≡ value_of self.old place }
    {
        match place {
            ServerId::Zero => &mut self.zero,
            ServerId::One => &mut self.one,
            ServerId::Two => &mut self.two,
        }
    }
}
