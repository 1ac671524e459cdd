//! What a server holds after a boot or a demotion, and what a power failure saves of it.

ghost use Rattle.std.specs.Prelude.{◌≡◌, ℕ, Some, is_some, true, false, IfSome, []};
ghost use Rattle.file_tree.specs.Book.{Entry};
ghost use Rattle.group_rules.specs.Effects.{rested};
ghost use Rattle.group_rules.specs.Limits.{can_have, is_log};
ghost use Rattle.group_rules.specs.Names.{place_of};
ghost use Rattle.group_rules.specs.Places.{Place, is_p2};
ghost use Rattle.group_rules.specs.State.{Empty, Log, Mark, Server};
ghost use Rattle.idle_log.specs.Boots.{rests, role_of, saved_of, takes_saved};
ghost use Rattle.idle_log.specs.Kept.{IsPlaced, held_in, log_in, with_kept};
ghost use Rattle.idle_log.specs.declared.kept.Kept.TheVariants as kept;

use crate::kept::Kept;
use harp_types::{Role, ServerId};
use view_form::is_witness;
use volatile_log::{EmptyLog, FrozenLog, LostLog};

/// Whether a choice can give a server this role. A boot takes the saved log of no other mark.
pub fn can_have(me: ServerId, role: Role) -> bool
    ensures { result ≡ can_have (place_of me) (role_of role) }
{
    match (me, role) {
        (ServerId::Zero, Role::Leads(ServerId::One)) => true,
        (ServerId::Zero, Role::Leads(ServerId::Two)) => true,
        (ServerId::One, Role::Leads(ServerId::Two)) => true,
        (ServerId::One, Role::Follows(ServerId::Zero)) => true,
        (ServerId::Two, Role::Follows(ServerId::Zero)) => true,
        (ServerId::Two, Role::Follows(ServerId::One)) => true,
        (_, _) => false,
    }
}

impl Kept {
    /// What a boot has of a mark with this role and LB whose saved log it doesn't take: nothing, as
    /// server 2 that stands outside, or a lost log.
    pub fn unloaded(me: ServerId, role: Role, lb: u64) -> Kept
        ensures boots { (clock delta : ℕ) (m : Mark Entry) → m.role ≡ role_of role → m.lb ≡ lb
            → takes_saved (place_of me) m m.saved ≡ false
            → rested (place_of me) clock delta m ≡ rests clock delta m result }
        ensures placed { IsPlaced (place_of me) result }
        ensures without { is_log (held_in result) ≡ false }
        ensures records { (log_in result).records ≡ [] }
    {
        match role {
            Role::Outside => {
                if is_witness(me) {
                    Kept::Empty(EmptyLog::new())
                } else {
                    Kept::Lost(LostLog::of(lb))
                }
            }
            Role::Leads(_) => Kept::Lost(LostLog::of(lb)),
            Role::Follows(_) => Kept::Lost(LostLog::of(lb)),
        }
    }

    /// What a boot has of a mark whose saved log it takes, from that log with LB and AP of the
    /// mark: a data server just that, and server 2 the log with LB and AP at the base. It takes no
    /// memory.
    pub fn loaded(me: ServerId, log: FrozenLog) -> Kept
        ensures boots { (clock delta : ℕ) (m : Mark Entry) → can_have (place_of me) m.role ≡ true
            → log.lb ≡ m.lb → log.ap ≡ m.lb → m.saved ≡ Some (saved_of log)
            → rested (place_of me) clock delta m ≡ rests clock delta m result }
        ensures placed { IsPlaced (place_of me) result }
        ensures held { held_in result ≡ Log }
        ensures records { (log_in result).records ≡ log.records }
    {
        let _ = log.cp();
        if is_witness(me) {
            return Kept::Held(log.at_base());
        }
        Kept::Held(log)
    }

    /// Nothing, as server 2 has that is demoted.
    pub fn forget(self) -> Kept
        ensures drops { (s : Server Entry) → with_kept s result
            ≡ record s { held = Empty; base = 0; ap = 0; cp = 0; items = [] } }
        ensures placed { (q : Place) → is_p2 q ≡ true → IsPlaced q result }
        ensures records { (log_in result).records ≡ [] }
    {
        match self {
            Kept::Held(log) => Kept::Empty(witness::demote(log)),
            Kept::Lost(log) => Kept::Empty(log.forget()),
            Kept::Empty(log) => Kept::Empty(log),
        }
    }

    /// The log that a power failure saves, where the server holds one.
    pub fn into_log(self) -> Option<FrozenLog>
        ensures found { is_some result ≡ is_log (held_in self) }
        ensures value { IfSome result (λ log. self ≡ kept.Held log) }
    {
        match self {
            Kept::Held(log) => Some(log),
            Kept::Lost(_) => None,
            Kept::Empty(_) => None,
        }
    }
}
