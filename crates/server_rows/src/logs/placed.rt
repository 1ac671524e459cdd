//! Forms, and what a server can hold.

ghost use Rattle.std.specs.Prelude.{◌≡◌, true};
ghost use Rattle.group_rules.specs.Names.{place_of};
ghost use Rattle.idle_log.specs.Kept.{IsPlaced, plan_of};
ghost use Rattle.idle_log.specs.Pulls.{CanTake};

use crate::logs::words::server;
use harp_types::ServerId;
use idle_log::{Form, Kept};
use promise::Deadline;
use wire::Storers;

/// A server, and the Form that it takes a part of: leader, partner, source, base, CP and start.
pub(crate) fn form_of(numbers: [u64; 7]) -> Option<(ServerId, Form)> {
    let [me, leader, partner, source, base, cp, start] = numbers;
    let form = Form {
        storers: Storers::of(server(leader), server(partner))?,
        source: server(source),
        base,
        cp,
        start,
        horizon: Deadline::new(2000),
    };
    Some((server(me), form))
}

/// Whether a server can hold this: the witness alone nothing, and a log with LB and AP at its base.
pub(crate) fn is_placed(me: ServerId, kept: &Kept) -> bool
    ensures { result ≡ true → IsPlaced (place_of me) kept.now }
{
    match me {
        ServerId::Zero => !matches!(kept, Kept::Empty(_)),
        ServerId::One => !matches!(kept, Kept::Empty(_)),
        ServerId::Two => match kept {
            Kept::Held(log) => log.lb() == log.base() && log.ap() == log.base(),
            Kept::Lost(_) => true,
            Kept::Empty(_) => true,
        },
    }
}

/// Whether a server can hold this, and it fits a Form.
pub(crate) fn can_take(me: ServerId, kept: &Kept, form: &Form) -> bool
    ensures { result ≡ true → CanTake (place_of me) kept.now (plan_of form.now) }
{
    if !is_placed(me, kept) {
        return false;
    }
    kept.fits(me, form.base, form)
}
