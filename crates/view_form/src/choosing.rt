//! The choice of a view.

ghost use Rattle.std.specs.Prelude.{◌≡◌, ◌&&◌, ◌==◌, max, option_map};
ghost use Rattle.group_rules.specs.Limits.{is_log};
ghost use Rattle.harp_types.specs.declared.server.ServerId.TheVariants as server;
ghost use Rattle.group_rules.specs.Choose.{accepted_of, base_of, better, greatest, horizon_of, longer, pair_of, source_of, storers_base};
ghost use Rattle.group_rules.specs.Names.{number_of_view, place_of};
ghost use Rattle.view_form.specs.Choice.{choice, pair, report, reports, source};

use crate::join::JoinInfo;
use crate::plan::{Plan, Storers};
use harp_types::{Held, ServerId, Trio, ViewNo};
use promise::Deadline;

/// The choice that these joins allow: the storers (0,1) where both joined, else (0,2) or (1,2);
/// the source, the held server with the greatest accepted view of all joins and of these the one
/// with the greatest top. None exactly where fewer than two joined, or no held server has that
/// view. It takes no memory.
#[tactic(auto, using(crate::proofs::Views::view_back))]
pub fn choose(joins: &Trio<Option<JoinInfo>>) -> Option<Plan>
    ensures { result ≡ choice joins.now }
{
    let storers = storers(joins)?;
    let from = greatest(joins);
    let (source, best) = source(joins, from)?;
    Some(Plan {
        leader: storers.leader(),
        partner: storers.partner(),
        source,
        from,
        base: best.base.max(storers_base(joins, storers)),
        cp: best.cp,
        start: best.top,
        horizon: horizon(joins),
    })
}

/// The storers.
fn storers(joins: &Trio<Option<JoinInfo>>) -> Option<Storers>
    ensures { option_map pair result
        ≡ pair_of (reports joins.now).zero_th (reports joins.now).one_th
        (reports joins.now).two_th }
{
    match (joins.zero, joins.one, joins.two) {
        (Some(_), Some(_), _) => Some(Storers::ZeroOne),
        (Some(_), None, Some(_)) => Some(Storers::ZeroTwo),
        (None, Some(_), Some(_)) => Some(Storers::OneTwo),
        (Some(_), None, None) => None,
        (None, Some(_), None) => None,
        (None, None, _) => None,
    }
}

/// The later of two views.
#[tactic(auto, using(crate::proofs::Views::above_is, crate::proofs::Views::not_above))]
fn later(a: ViewNo, b: ViewNo) -> ViewNo
    ensures { number_of_view result ≡ max (number_of_view a) (number_of_view b) }
{
    if b.is_above(a) { b } else { a }
}

/// The view that a join tells as accepted, else view 0.0.
fn accepted(join: Option<JoinInfo>) -> ViewNo
    ensures { number_of_view result ≡ accepted_of (option_map report join) }
{
    match join {
        Some(join) => join.accepted,
        None => first_view(),
    }
}

/// View 0.0.
fn first_view() -> ViewNo
    ensures { result ≡ record { count = 0; coordinator = server.Zero } }
{
    match ViewNo::of(0, ServerId::Zero) {
        Some(view) => view,
        None => unreachable!(),
    }
}

/// The greatest accepted view of all joins.
fn greatest(joins: &Trio<Option<JoinInfo>>) -> ViewNo
    ensures { number_of_view result ≡ greatest (reports joins.now) }
{
    later(
        accepted(joins.zero),
        later(accepted(joins.one), accepted(joins.two)),
    )
}

/// The source, where these views are the greatest.
fn source(joins: &Trio<Option<JoinInfo>>, from: ViewNo) -> Option<(ServerId, JoinInfo)>
    ensures { option_map source result ≡ source_of (reports joins.now) (number_of_view from) }
{
    let best = better(None, from, ServerId::Zero, joins.zero);
    let best = better(best, from, ServerId::One, joins.one);
    better(best, from, ServerId::Two, joins.two)
}

/// The better source of the one so far and this server.
fn better(
    best: Option<(ServerId, JoinInfo)>,
    from: ViewNo,
    server: ServerId,
    join: Option<JoinInfo>,
) -> Option<(ServerId, JoinInfo)>
    ensures { option_map source result
        ≡ better (number_of_view from) (option_map source best) (place_of server)
        (option_map report join) }
{
    match join {
        None => best,
        Some(join) => {
            if is_of(&join, from) {
                longer(best, server, &join)
            } else {
                best
            }
        }
    }
}

/// Whether a join is that of a held server with this view.
fn is_of(join: &JoinInfo, from: ViewNo) -> bool
    ensures { result ≡ is_log (report join.now).held &&
        ((report join.now).accepted == number_of_view from) }
{
    match join.held {
        Held::Held => join.accepted.is_same(from),
        Held::Lost => false,
        Held::Empty => false,
    }
}

/// The one with the longer log, the one so far in a tie.
fn longer(
    best: Option<(ServerId, JoinInfo)>,
    server: ServerId,
    join: &JoinInfo,
) -> Option<(ServerId, JoinInfo)>
    ensures { option_map source result
        ≡ longer (place_of server) (report join.now) (option_map source best) }
{
    match best {
        None => Some((server, *join)),
        Some(b) => {
            if b.1.top < join.top {
                Some((server, *join))
            } else {
                Some(b)
            }
        }
    }
}

/// The base that a held server tells.
fn base(join: Option<JoinInfo>) -> u64
    ensures { result ≡ base_of (option_map report join) }
{
    match join {
        None => 0,
        Some(join) => match join.held {
            Held::Held => join.base,
            Held::Lost => 0,
            Held::Empty => 0,
        },
    }
}

/// The greatest base of the held data servers among the storers.
fn storers_base(joins: &Trio<Option<JoinInfo>>, storers: Storers) -> u64
    ensures { result ≡ storers_base (pair storers) (reports joins.now) }
{
    match storers {
        Storers::ZeroOne => base(joins.zero).max(base(joins.one)),
        Storers::ZeroTwo => base(joins.zero),
        Storers::OneTwo => base(joins.one),
    }
}

/// The horizon that a join tells.
fn horizon_of(join: Option<JoinInfo>) -> Deadline
    ensures { result ≡ horizon_of (option_map report join) }
{
    match join {
        Some(join) => join.horizon,
        None => Deadline::new(0),
    }
}

/// The greatest horizon of all joins.
fn horizon(joins: &Trio<Option<JoinInfo>>) -> Deadline
    ensures { result ≡ max (horizon_of (reports joins.now).zero_th) (max (horizon_of
        (reports joins.now).one_th) (horizon_of (reports joins.now).two_th)) }
{
    horizon_of(joins.zero).later(horizon_of(joins.one).later(horizon_of(joins.two)))
}
