//! Who answers calls.

ghost use Rattle.std.specs.Prelude.{◌≡◌, List, true, IfErr, IfOk};
ghost use Rattle.harp_types.specs.declared.call.Call.{Call as Called};
ghost use Rattle.harp_types.specs.declared.cred.Cred.{Cred as By};
ghost use Rattle.rpc_door.specs.declared.group.Exchange.{Exchange as Made};
ghost use Rattle.rpc_door.specs.declared.group.GroupFault.{GroupFault as Why};
ghost use Rattle.rpc_door.specs.Results.{is_reply_to};
ghost use Rattle.rpc_door.specs.Group.{Counts, IsCounted, LeavesUnanswered, NoneFell, TellsMore, answered_by};

use harp_types::{Call, Cred, Reply};
use std::alloc::Global;

/// A call, who made it, and its reply.
#[derive(Drop)]
pub struct Exchange {
    pub cred: Cred,
    pub call: Call,
    pub reply: Reply,
}

/// Why a call got no reply.
#[derive(Clone, Copy, PartialEq, Eq)]
pub enum GroupFault {
    /// Something failed, and no call is answered any more.
    Failed,
    /// The turns that a call has are over.
    Spent,
    NoMemory,
}

/// A file service that answers calls, each once.
pub trait Group {
    // What it can have started from.
    ghost Start: { Type 0 };

    // These are the calls that it answered since it started so, in order; and this is what it is
    // now.
    ghost told: { Self → Self.Start → List Made → Type 0 };

    // It answered these calls since it started so, and then, for this reason, not this one.
    ghost unanswered: { Self → Why → Self.Start → List Made → By → Called → Type 0 };

    // It answered all calls so far.
    ghost runs: { Self → Type 0 };

    // How many calls failed, and how many it gave up.
    ghost counts: { Self → Counts };

    // What it can run on, as it was before.
    ghost Basis: { Type 0 };

    // It runs on it. That stays so after a fault.
    ghost on: { Self → Self.Basis → Type 0 };

    /// The reply to a call by this user and group, of a form that the call can get.
    fn call(&mut self, alloc: Global, cred: Cred, call: &Call) -> Result<Reply, GroupFault>
        requires { runs self.old }
        ensures runs { IfOk result (λ _. runs self.new) }
        ensures told { TellsMore (told self.old) (told self.new)
            (answered_by cred call.now result) }
        ensures form { IfOk result (λ reply. is_reply_to call.now reply ≡ true) }
        ensures unanswered { IfErr result (λ why. LeavesUnanswered (told self.old)
            (unanswered self.new) why cred call.now) }
        ensures counted { IfErr result (λ why. IsCounted why (counts self.old)
            (counts self.new)) }
        ensures counts { NoneFell (counts self.old) (counts self.new) }
        ensures on { (o : Self.Basis) → on self.old o → on self.new o };
}
