//! How a trace shows a server.

ghost use Rattle.std.specs.Prelude.{◌≡◌, [], List, false};
ghost use Rattle.file_tree.specs.Book.{Entry};
ghost use Rattle.group_rules.specs.Shown.{held_shown, mode_joined, mode_shown, state_of};
ghost use Rattle.group_rules.specs.State.{Duty, Log};
ghost use Rattle.idle_log.specs.Kept.{held_in, log_in};
ghost use Rattle.node.specs.Node.{server};
ghost use Rattle.node.specs.Showing.{line_of};
ghost use Rattle.node.specs.State.{duty_of};
ghost use Rattle.replica.specs.Following.{mode_followed};
ghost use Rattle.replica.specs.Leading.{mode_led};

use crate::node::Node;
use crate::state::{State, Task};
use harp_store::Mark;
use harp_types::{Held, Mode, StateLine};
use idle_log::Kept;
use replica::{Leader, Partner};
use volatile_log::ActiveLog;

impl Node {
    /// The server's state line. A lost server shows its LB for each number, one without a log 0. It
    /// goes into its callers, which compare a few of its numbers: so no line is moved.
    #[inline(always)]
    pub fn state_line(&self) -> StateLine
        requires { self.now.halted ≡ false }
        ensures { (items : List Entry) → result ≡ state_of (server self.now items) }
    {
        match &self.state {
            State::Gone => unreachable!(),
            State::Rests(kept) => line_of_kept(&self.mark, Mode::Rests, kept),
            State::Joined(kept, _) => line_of_kept(&self.mark, joined_mode(&self.duty), kept),
            State::Pulls(kept, _, _, _) => line_of_kept(&self.mark, Mode::Pulls, kept),
            State::Leads(leader, _) => line_of_log(&self.mark, led_mode(leader), leader.log()),
            State::Follows(partner, _) => {
                line_of_log(&self.mark, followed_mode(partner), partner.log())
            }
        }
    }
}

/// The line of a server with this mark that is at this, with an active log.
fn line_of_log(mark: &Mark, mode: Mode, log: &ActiveLog) -> StateLine
    ensures { result ≡ line_of mark.now mode (held_shown Log) log.now }
{
    StateLine {
        mode,
        promised: mark.promised(),
        accepted: mark.accepted(),
        role: mark.role(),
        held: Held::Held,
        base: log.base(),
        lb: log.lb(),
        ap: log.ap(),
        cp: log.cp(),
        top: log.top(),
    }
}

/// The line of a server with this mark that is at this, and keeps this.
fn line_of_kept(mark: &Mark, mode: Mode, kept: &Kept) -> StateLine
    ensures { result ≡ line_of mark.now mode (held_shown (held_in kept.now)) (log_in kept.now) }
{
    match kept {
        Kept::Held(log) => StateLine {
            mode,
            promised: mark.promised(),
            accepted: mark.accepted(),
            role: mark.role(),
            held: Held::Held,
            base: log.base(),
            lb: log.lb(),
            ap: log.ap(),
            cp: log.cp(),
            top: log.top(),
        },
        Kept::Lost(log) => bare_line(mark, mode, Held::Lost, log.lb()),
        Kept::Empty(_) => bare_line(mark, mode, Held::Empty, 0),
    }
}

/// The line of a server with this mark that is at this and has no log: it shows this for each
/// number.
fn bare_line(mark: &Mark, mode: Mode, held: Held, number: u64) -> StateLine
    ensures { result ≡ line_of mark.now mode held (record {
      base = number;
      lb = number;
      ap = number;
      cp = number;
      records = [];
    }) }
{
    StateLine {
        mode,
        promised: mark.promised(),
        accepted: mark.accepted(),
        role: mark.role(),
        held,
        base: number,
        lb: number,
        ap: number,
        cp: number,
        top: number,
    }
}

/// What a leader is at.
fn led_mode(leader: &Leader) -> Mode
    ensures { (duty : Duty) → result ≡ mode_shown (mode_led leader.now.opened) duty }
{
    if leader.is_open() {
        Mode::Open
    } else {
        Mode::Waits
    }
}

/// What a partner is at.
fn followed_mode(partner: &Partner) -> Mode
    ensures { (duty : Duty) → result ≡ mode_shown (mode_followed partner.now.settled) duty }
{
    if partner.is_settled() {
        Mode::Live
    } else {
        Mode::Waits
    }
}

/// What a server that joined is at: a coordinator without a choice calls.
fn joined_mode(duty: &Task) -> Mode
    ensures { result ≡ mode_joined (duty_of duty.now) }
{
    match duty {
        Task::Collects(_) => Mode::Calls,
        Task::Chose(_, _) => Mode::Joined,
        Task::Free => Mode::Joined,
    }
}
