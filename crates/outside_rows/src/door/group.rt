//! A group that gives replies that it was told, and may fail.

ghost use Rattle.std.specs.Prelude.{◌≡◌, true, IfOk};
ghost use Rattle.rpc_door.specs.Results.{is_reply_to};

use crate::door::words::put_call;
use harp_types::{Call, Cred, Reply};
use rpc_door::{Group, GroupFault, is_reply_to};
use std::alloc::{AllocError, Global};

/// What a group was told to give, and what it was asked.
#[derive(Drop)]
pub(crate) struct Script {
    /// In the order of the calls.
    pub(crate) replies: Vec<Reply>,
    /// The call with this number, from 1, comes to nothing for this reason.
    pub(crate) fault: Option<(usize, GroupFault)>,
    /// Who made the calls so far, and which ones, a line each.
    pub(crate) asked: String,
    calls: usize,
}

impl Script {
    fn note(&mut self, alloc: Global, cred: Cred, call: &Call) -> Result<(), AllocError> {
        let Cred { uid, gid } = cred;
        let who = format!(in alloc; "{uid} {gid} ")?;
        self.asked.push_str(who.as_str())?;
        put_call(alloc, &mut self.asked, call)
    }

    /// The reply to a call, the one with this number, from 0.
    fn reply_to(&self, alloc: Global, number: usize, call: &Call) -> Result<Reply, GroupFault>
        ensures { IfOk result (λ reply. is_reply_to call.now reply ≡ true) }
    {
        match self.replies.get(number) {
            Some(reply) if is_reply_to(call, reply) => match reply.copy(alloc) {
                Ok(reply) => Ok(reply),
                Err(_) => Err(GroupFault::NoMemory),
            },
            _ => Err(GroupFault::Failed),
        }
    }

    /// The reply to a call, which is the next one.
    fn next_reply(&mut self, alloc: Global, cred: Cred, call: &Call) -> Result<Reply, GroupFault>
        ensures { IfOk result (λ reply. is_reply_to call.now reply ≡ true) }
    {
        if self.note(alloc, cred, call).is_err() {
            return Err(GroupFault::NoMemory);
        }
        let number = self.calls;
        self.calls = number.saturating_add(1);
        match self.fault {
            Some((at, why)) if at == self.calls => Err(why),
            _ => self.reply_to(alloc, number, call),
        }
    }
}

/// A group that does as it was told.
#[derive(Drop)]
pub(crate) struct ToldGroup {
    pub(crate) script: Script,
    failed: u64,
    spent: u64,
}

impl ToldGroup {
    /// A group that has no replies yet.
    pub(crate) fn new(alloc: Global) -> ToldGroup {
        ToldGroup {
            script: Script {
                replies: Vec::new(alloc),
                fault: None,
                asked: String::new(alloc),
                calls: 0,
            },
            failed: 0,
            spent: 0,
        }
    }
}

impl Group for ToldGroup {
    ghost Start = { Unit {0} };

    ghost told = { λ _ _ _. Unit {0} };

    ghost unanswered = { λ _ _ _ _ _ _. Unit {0} };

    ghost runs = { λ _. Unit {0} };

    ghost counts = { λ g. record { failed = g.failed; spent = g.spent } };

    ghost Basis = { Unit {0} };

    ghost on = { λ _ _. Unit {0} };

    fn call(&mut self, alloc: Global, cred: Cred, call: &Call) -> Result<Reply, GroupFault> {
        match self.script.next_reply(alloc, cred, call) {
            Ok(reply) => Ok(reply),
            Err(GroupFault::Failed) => {
                self.failed = self.failed.saturating_add(1);
                Err(GroupFault::Failed)
            }
            Err(GroupFault::Spent) => {
                self.spent = self.spent.saturating_add(1);
                Err(GroupFault::Spent)
            }
            Err(GroupFault::NoMemory) => Err(GroupFault::NoMemory),
        }
    }
}
