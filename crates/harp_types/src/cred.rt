//! Who makes a call.

/// The user and the group that a call is made by. User 0 may do all.
#[derive(Clone, Copy, PartialEq, Eq)]
pub struct Cred {
    pub uid: u32,
    pub gid: u32,
}

/// The superuser's own credential.
pub const SUPERUSER: Cred = Cred { uid: 0, gid: 0 };
