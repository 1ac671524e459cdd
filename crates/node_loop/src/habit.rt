//! The habits of running servers.

ghost use Rattle.std.specs.Prelude.{◌≡◌, ◌≤◌, ◌&&◌, ◌||◌, nat_lt};
ghost use Rattle.node_loop.specs.Habits.{after_suspicion, applied_at_once, flushes_by, is_crowded};
ghost use Rattle.node_loop.specs.Habits.{is_nudged_by, leads, longer, once_more, patience_by};

use crate::look::Look;
use harp_types::Role;

/// The updates that a plain server applies at a tick, at most.
pub const APPLIED_AT_ONCE: u32 = 64;

/// Those that a steady one does.
const APPLIED_STEADILY: u32 = 4_096;

/// Those that it does where its log is crowded: as many as a log has room for.
const APPLIED_IN_A_CROWD: u32 = 32_768;

/// So many records are half of a log's room.
const HALF_A_LOG: u64 = 16_384;

// Whether more than half of its log's room is taken.
fn is_crowded(look: &Look) -> bool
    ensures { result ≡ is_crowded look.now }
{
    HALF_A_LOG < look.records
}

// Whether a server leads its view.
fn leads(role: Role) -> bool
    ensures { result ≡ leads role }
{
    match role {
        Role::Leads(_) => true,
        Role::Follows(_) => false,
        Role::Outside => false,
    }
}

/// How a running server keeps its pace.
#[derive(Clone, Copy, PartialEq, Eq)]
pub enum Habit {
    /// It applies 64 updates at a tick, and flushes at each fifth one; it heeds the other storer of
    /// its view.
    Plain,
    /// It applies 4,096 updates at a tick, and where its log is more than half full it applies all
    /// that are committed and flushes. As a leader it sends again what wasn't acknowledged, once
    /// nothing came of its view for 10 milliseconds: a partner that applies takes nothing
    /// meanwhile, and its socket has room for few records. It heeds all servers that tell of its
    /// view, and its patience grows while no view opens.
    Steady,
}

/// How often a server's patience is doubled.
#[derive(Clone, Copy, PartialEq, Eq)]
pub enum Doubled {
    Never,
    Once,
    Twice,
    Thrice,
}

impl Doubled {
    /// Once more, but no more than thrice.
    fn once_more(self) -> Doubled
        ensures { result ≡ once_more self }
    {
        match self {
            Doubled::Never => Doubled::Once,
            Doubled::Once => Doubled::Twice,
            Doubled::Twice => Doubled::Thrice,
            Doubled::Thrice => Doubled::Thrice,
        }
    }

    /// So many ticks, doubled so often.
    fn longer(self, ticks: u64) -> u64
        requires { ticks ≤ 20 }
        ensures { result ≡ longer self ticks }
    {
        match self {
            Doubled::Never => ticks,
            Doubled::Once => 2 * ticks,
            Doubled::Twice => 4 * ticks,
            Doubled::Thrice => 8 * ticks,
        }
    }
}

impl Habit {
    /// The updates that are applied at a tick, at most.
    pub(crate) fn applied_at_once(self, look: &Look) -> u32
        ensures { result ≡ applied_at_once self look.now }
    {
        match self {
            Habit::Plain => APPLIED_AT_ONCE,
            Habit::Steady => {
                if is_crowded(look) {
                    APPLIED_IN_A_CROWD
                } else {
                    APPLIED_STEADILY
                }
            }
        }
    }

    /// Whether a tick flushes, which is a fifth one or isn't.
    pub(crate) fn flushes(self, look: &Look, is_fifth: bool) -> bool
        ensures { result ≡ flushes_by self look.now is_fifth }
    {
        match self {
            Habit::Plain => is_fifth,
            Habit::Steady => is_fifth || is_crowded(look),
        }
    }

    /// Whether a server that sees this of itself is nudged between its ticks.
    pub(crate) fn is_nudged(self, look: &Look) -> bool
        ensures { result ≡ is_nudged_by self look.now }
    {
        match self {
            Habit::Plain => false,
            Habit::Steady => look.is_open && leads(look.role) && 0 < look.unacknowledged,
        }
    }

    /// How many quiet ticks are too many, of a server that is this patient at first.
    pub(crate) fn patience(self, ticks: u64, doubled: Doubled) -> u64
        requires { ticks ≤ 20 }
        ensures { result ≡ patience_by self ticks doubled }
    {
        match self {
            Habit::Plain => ticks,
            Habit::Steady => doubled.longer(ticks),
        }
    }

    /// How often the patience is doubled behind a tick that suspects, or doesn't.
    pub(crate) fn after(self, suspects: bool, doubled: Doubled) -> Doubled
        ensures { result ≡ after_suspicion self suspects doubled }
    {
        match self {
            Habit::Plain => Doubled::Never,
            Habit::Steady => {
                if suspects {
                    doubled.once_more()
                } else {
                    doubled
                }
            }
        }
    }
}
