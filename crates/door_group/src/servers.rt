//! Servers that are asked.

ghost use Rattle.std.specs.Prelude.{◌≡◌, ◌≤◌, ℕ, List, Err, OnErr, OnOk};
ghost use Rattle.harp_types.specs.declared.server.ServerId.{ServerId as Place};
ghost use Rattle.node_loop.specs.declared.heard.Heard.{Heard as Said};
ghost use Rattle.node_loop.specs.Outgoing.{IsNext};
ghost use Rattle.node_loop.specs.Run.{Asked};
ghost use Rattle.door_group.specs.Rule.{Fails, LeadsOn};

use harp_types::{Call, Cred, ServerId};
use node_loop::Heard;
use std::alloc::{AllocError, Global};

/// Why servers can't be asked any more.
#[derive(Clone, Copy, PartialEq, Eq)]
pub enum ServersFault {
    Failed,
    NoMemory,
}

impl From<AllocError> for ServersFault {
    ghost use Rattle.door_group.specs.declared.servers.ServersFault.TheVariants.{NoMemory};

    ghost from_gives = { λ _ fault. fault ≡ NoMemory };

    fn from(_: AllocError) -> ServersFault {
        ServersFault::NoMemory
    }
}

/// The servers of a group, which take turns and are asked. After a fault they aren't used again.
pub trait Servers {
    // They can be used, as no call of theirs has failed.
    ghost runs: { Self → Type 0 };

    // What they, their disks and what lies between them can be.
    ghost Scene: { Type 0 };

    // It is this.
    ghost stands: { Self → Self.Scene → Type 0 };

    // What was heard and not looked at yet.
    ghost said: { Self → List Said };

    // A turn leads from one scene to another, and this is heard by it.
    ghost turns: { Self.Scene → List Said → Self.Scene → Type 0 };

    // So does an ask at a server.
    ghost asks: { Place → Asked → Self.Scene → List Said → Self.Scene → Type 0 };

    // What shows of them where a turn or an ask fails.
    ghost Trail: { Type 0 };

    // It is this.
    ghost trail: { Self → Self.Trail };

    // A turn from this scene fails so.
    ghost turn_breaks: { Self.Scene → Self.Trail → Type 0 };

    // So does an ask at a server.
    ghost ask_breaks: { Place → Asked → Self.Scene → Self.Trail → Type 0 };

    // How many calls failed of what they run on, which never falls.
    ghost faults: { Self → ℕ };

    // They show that it failed, and what it was.
    ghost failed: { Self → Type 0 };

    // What they can run on, as it was before.
    ghost Basis: { Type 0 };

    // They run on it. That stays so after a fault.
    ghost on: { Self → Self.Basis → Type 0 };

    /// A turn.
    fn turn(&mut self, alloc: Global) -> Result<(), ServersFault>
        requires { runs self.old }
        ensures runs { OnOk result (runs self.new) }
        ensures turns { OnOk result ((w : Self.Scene) → stands self.old w
            → LeadsOn turns (stands self.new) (said self.old) (said self.new) w) }
        ensures broken { OnErr result ((w : Self.Scene) → stands self.old w
            → turn_breaks w (trail self.new)) }
        ensures failed { result ≡ Err ServersFault.Failed
            → Fails (failed self.new) (faults self.old) (faults self.new) }
        ensures count { faults self.old ≤ faults self.new }
        ensures on { (o : Self.Basis) → on self.old o → on self.new o };

    /// A call is asked at a server, for a client under a number.
    fn ask(
        &mut self,
        alloc: Global,
        place: ServerId,
        client: u32,
        number: u64,
        cred: Cred,
        call: &Call,
    ) -> Result<(), ServersFault>
        requires { runs self.old }
        ensures runs { OnOk result (runs self.new) }
        ensures asks { OnOk result ((w : Self.Scene) → stands self.old w
            → LeadsOn (asks place (record {
              client = client;
              number = number;
              cred = cred;
              call = call.now;
            })) (stands self.new) (said self.old) (said self.new) w) }
        ensures broken { OnErr result ((w : Self.Scene) → stands self.old w
            → ask_breaks place (record {
              client = client;
              number = number;
              cred = cred;
              call = call.now;
            }) w (trail self.new)) }
        ensures failed { result ≡ Err ServersFault.Failed
            → Fails (failed self.new) (faults self.old) (faults self.new) }
        ensures count { faults self.old ≤ faults self.new }
        ensures on { (o : Self.Basis) → on self.old o → on self.new o };

    /// What was heard first and not looked at yet.
    fn hear(&mut self) -> Option<Heard>
        ensures runs { runs self.old → runs self.new }
        ensures next { IsNext result (said self.old) (said self.new) }
        ensures stands { (w : Self.Scene) → stands self.old w → stands self.new w }
        ensures count { faults self.old ≤ faults self.new }
        ensures on { (o : Self.Basis) → on self.old o → on self.new o };
}
