//! What a server holds where it is active in no view.

ghost use Rattle.std.specs.Prelude.{◌≡◌, ◌<◌, ◌^◌};
ghost use Rattle.file_tree.specs.Book.{Entry};
ghost use Rattle.group_rules.specs.Effects.{report_of};
ghost use Rattle.group_rules.specs.Names.{number_of_view};
ghost use Rattle.group_rules.specs.State.{Server};
ghost use Rattle.idle_log.specs.Kept.{ap_in, base_in, cp_in, held_in, top_in, with_kept};
ghost use Rattle.view_form.specs.Choice.{held_of, report};

use harp_types::{Held, ViewNo};
use promise::Deadline;
use view_form::JoinInfo;
use volatile_log::{EmptyLog, FrozenLog, LostLog};

/// What a server holds of the list of updates where it is active in no view: a log, nothing though
/// it was a storer, or nothing because it stands outside. Its contracts see a server of the group's
/// rules that holds this (`with_kept`), whatever the rest of the server is.
#[derive(Drop)]
pub enum Kept {
    Held(FrozenLog),
    Lost(LostLog),
    Empty(EmptyLog),
}

impl Kept {
    /// What it is.
    pub fn held(&self) -> Held
        ensures { held_of result ≡ held_in self.now }
    {
        match self {
            Kept::Held(_) => Held::Held,
            Kept::Lost(_) => Held::Lost,
            Kept::Empty(_) => Held::Empty,
        }
    }

    /// The index before the first record: LB of a lost log, and 0 of none at all.
    pub fn base(&self) -> u64
        ensures { result ≡ base_in self.now }
    {
        match self {
            Kept::Held(log) => log.base(),
            Kept::Lost(log) => log.lb(),
            Kept::Empty(_) => 0,
        }
    }

    /// The index up to which records are applied: LB of a lost log, and 0 of none at all.
    pub fn ap(&self) -> u64
        ensures { result ≡ ap_in self.now }
    {
        match self {
            Kept::Held(log) => log.ap(),
            Kept::Lost(log) => log.lb(),
            Kept::Empty(_) => 0,
        }
    }

    /// The index up to which records are known to be committed: LB of a lost log, and 0 of none at
    /// all.
    pub fn cp(&self) -> u64
        ensures { result ≡ cp_in self.now }
    {
        match self {
            Kept::Held(log) => log.cp(),
            Kept::Lost(log) => log.lb(),
            Kept::Empty(_) => 0,
        }
    }

    /// The index of the last record: LB of a lost log, and 0 of none at all.
    pub fn top(&self) -> u64
        ensures { result ≡ top_in self.now }
    {
        match self {
            Kept::Held(log) => log.top(),
            Kept::Lost(log) => log.lb(),
            Kept::Empty(_) => 0,
        }
    }

    /// What the server tells when it joins a view, beside the view that it accepted and until when
    /// it may have promised. A lost log is told with its LB for each number.
    pub fn report(&self, accepted: ViewNo, horizon: Deadline) -> JoinInfo
        ensures { (s : Server Entry) → report result
            ≡ report_of (record (with_kept s self.now) {
              accepted = number_of_view accepted;
              horizon = horizon;
            }) }
    {
        match self {
            Kept::Held(log) => JoinInfo {
                held: Held::Held,
                accepted,
                base: log.base(),
                lb: log.lb(),
                cp: log.cp(),
                top: log.top(),
                horizon,
            },
            Kept::Lost(log) => {
                let lb = log.lb();
                JoinInfo {
                    held: Held::Lost,
                    accepted,
                    base: lb,
                    lb,
                    cp: lb,
                    top: lb,
                    horizon,
                }
            }
            Kept::Empty(_) => JoinInfo {
                held: Held::Empty,
                accepted,
                base: 0,
                lb: 0,
                cp: 0,
                top: 0,
                horizon,
            },
        }
    }
}
