//! Updates and their times.

ghost use Rattle.std.specs.Prelude.{◌≡◌};
ghost use Rattle.harp_types.specs.Time.{time_of};
ghost use Rattle.harp_types.specs.Update.{changes_entries, is_update};

use crate::attr::Time;
use crate::call::Call;
use crate::limits::FIELD_LEFT;

/// Whether a call may change the tree: SETATTR, WRITE, CREATE, REMOVE, RENAME, LINK, SYMLINK,
/// MKDIR and RMDIR may, and the others are reads.
pub fn is_update(call: &Call) -> bool
    ensures { result ≡ is_update call.now }
{
    match call {
        Call::SetAttr { .. }
        | Call::Write { .. }
        | Call::Create { .. }
        | Call::Remove { .. }
        | Call::Rename { .. }
        | Call::Link { .. }
        | Call::SymLink { .. }
        | Call::MkDir { .. }
        | Call::RmDir { .. } => true,
        Call::Null
        | Call::GetAttr { .. }
        | Call::Lookup { .. }
        | Call::ReadLink { .. }
        | Call::Read { .. }
        | Call::ReadDir { .. }
        | Call::StatFs { .. } => false,
    }
}

/// Whether an update changes entries of directories alone: REMOVE, RENAME, LINK and RMDIR do.
pub fn changes_entries(call: &Call) -> bool
    ensures { result ≡ changes_entries call.now }
{
    matches!(
        call,
        Call::Remove { .. } | Call::Rename { .. } | Call::Link { .. } | Call::RmDir { .. }
    )
}

/// The time of a stamp in milliseconds. Its seconds stop at 2^32 - 2, since 2^32 - 1 means leave
/// in the attributes of a call.
pub fn time_of(stamp: u64) -> Time
    ensures { result ≡ time_of stamp }
{
    let seconds = (stamp / 1000).min(u64::from(FIELD_LEFT - 1)) as u32;
    let micros = (stamp % 1000 * 1000) as u32;
    Time { seconds, micros }
}
