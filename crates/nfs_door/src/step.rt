//! What is to be done for a record.

use crate::claim::{Claim, Denied};
use crate::path::Names;
use harp_types::{Bytes, Call, Cred};

/// What is to be done for a record.
#[derive(Drop)]
pub enum Step {
    /// Nothing: it means nothing that can be answered.
    Silent,
    /// It is answered so: the bytes of the reply, without its record mark.
    Answer(Bytes),
    /// A call is to be made first.
    Call(Errand),
}

/// A call that is made for a record, by whom, and what follows its reply. Its drop is written out,
/// so that each place where one is dropped is a call, and isn't proved of all that it may hold.
pub struct Errand {
    pub cred: Cred,
    pub call: Call,
    pub then: Then,
}

impl Drop for Errand {
    fn drop(self) {
        let Errand {
            cred: _,
            call: _,
            then: _,
        } = self;
    }
}

/// What follows the reply to a call.
#[derive(Drop)]
pub enum Then {
    /// The reply is the answer of the record with this number, unless a user who is refused may
    /// claim more.
    Replies { xid: u32, claim: Option<Claim> },
    /// It tells of an object for which a call may have been refused.
    Looks(Denied),
    /// It is a step of a MOUNT: these names are still to be looked up behind this one.
    Mounts { xid: u32, names: Names },
}
