//! A server's part in its view.

ghost use Rattle.std.specs.Prelude.{◌≡◌};

use crate::node::Node;
use harp_types::Role;

impl Node {
    /// Its role in the view that it accepted.
    pub fn role(&self) -> Role
        ensures { result ≡ self.now.mark.role }
    {
        self.mark.role()
    }
}
