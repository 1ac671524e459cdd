//! Records that are pulled for a Form.

ghost use Rattle.std.specs.Prelude.{◌≡◌, ◌<◌, ◌≤◌, IfSome, OnSome};
ghost use Rattle.group_rules.specs.Names.{place_of};
ghost use Rattle.idle_log.specs.Kept.{plan_of};
ghost use Rattle.idle_log.specs.Pulls.{CanTake, IsFor};
ghost use Rattle.volatile_log.specs.Log.{next};

use crate::logs::active::record;
use crate::logs::words::Answer;
use event_record::{Index, Record};
use harp_types::ServerId;
use idle_log::{Form, Kept};
use std::alloc::Global;
use volatile_log::Staged;

/// The records that a server pulls, with the index of the record that it wanted first, and of the
/// one behind those that it pulled.
pub(crate) fn pulled(
    alloc: Global,
    kept: &Kept,
    me: ServerId,
    form: &Form,
) -> Option<(Staged, Answer)>
    requires { CanTake (place_of me) kept.now (plan_of form.now) }
    ensures { IfSome result (λ both. IsFor (place_of me) kept.now (plan_of form.now) both.0
        × (both.0.start < next both.0)) }
{
    let mut staged = kept.stage(alloc, me, form).ok()?;
    let wanted = staged.next();
    fill(alloc, &mut staged)?;
    let answer = Answer::Two([wanted, staged.next()]);
    Some((staged, answer))
}

/// Stages records until the list is full.
fn fill(alloc: Global, staged: &mut Staged) -> Option<()>
    requires first { 1 ≤ staged.old.first }
    ensures first { staged.new.first ≡ staged.old.first }
    ensures start { staged.new.start ≡ staged.old.start }
    ensures full { OnSome result (staged.new.start < next staged.new) }
{
    'filling: for _ in 0..u64::MAX {
        if staged.is_full() {
            return Some(());
        }
        let item = record(alloc, Index::new(staged.next()), 1)?;
        stage(staged, item)?;
    }
    None
}

/// Stages a record.
fn stage(staged: &mut Staged, item: Record) -> Option<()>
    requires wanted { next staged.old ≤ staged.old.start }
    requires next { item.index ≡ next staged.old }
    ensures first { staged.new.first ≡ staged.old.first }
    ensures start { staged.new.start ≡ staged.old.start }
{
    match staged.take(item) {
        Ok(()) => Some(()),
        Err(_) => None,
    }
}
