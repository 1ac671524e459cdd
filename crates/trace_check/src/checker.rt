//! Whether a trace is faithful and acknowledged, and uses promises, line by line.

ghost use Rattle.std.specs.Prelude.{◌≡◌, ℕ, ◌↔◌, ◌<◌, ◌^◌, ◌++◌, ◌∷◌, [], length, IsTrue, IfOk, OnOk, None};
ghost use Rattle.file_tree.specs.Book.{IsBook, tree_after};
ghost use Rattle.trace_types.specs.declared.line.Line.TheVariants as line;
ghost use Rattle.trace_claims.specs.Acknowledged.{HasAcknowledged};
ghost use Rattle.trace_claims.specs.Faithful.{IsReplyIn};
ghost use Rattle.trace_claims.specs.Reading.{HasPromise};
ghost use Rattle.trace_claims.specs.Trace.{Trace, entries, step_under_way};
ghost use Rattle.trace_check.specs.Asks.{AreAsksOf};
ghost use Rattle.trace_check.specs.Breaches.{ComesInOrder, IsAccepted, IsVerdict};
ghost use Rattle.trace_check.specs.Checker.{FollowsLine, Saw};
ghost use Rattle.trace_check.specs.declared.checker.Checker.{Checker as CheckerValue};
ghost use Rattle.trace_check.specs.ClocksRead.{AreClocksOf};
ghost use Rattle.trace_check.specs.History.{IsHistoryOf};
ghost use Rattle.trace_check.specs.Network.{IsNetworkOf};
ghost use Rattle.trace_check.specs.ServersSeen.{AreServersOf};
ghost use Rattle.trace_check.specs.UnderWay.{IsUnderWay};

use crate::asks::Asks;
use crate::breach::Breach;
use crate::clocks::Clocks;
use crate::history::History;
use crate::network::Network;
use crate::same::same_reply;
use crate::servers::Servers;
use crate::under_way::UnderWay;
use harp_types::{BookEntry, Reply, Role, ServerId};
use plain_tree::PlainTree;
use std::alloc::{AllocError, Global};
use trace_types::Line;

/// What the lines so far say of the next one. Its tree is a plain tree of lists. A line costs a few
/// look-ups in maps, however many lines stand before it, and what its call does to the tree.
#[derive(Drop)]
pub struct Checker {
    tree: PlainTree,
    history: History,
    asks: Asks,
    network: Network,
    servers: Servers,
    clocks: Clocks,
    under_way: UnderWay,
}

// Whether an entered line has the next number, its entry comes next, and its call was asked.
fn is_in_order(
    alloc: Global,
    history: &History,
    asks: &Asks,
    place: u64,
    entry: &BookEntry,
) -> Result<bool, AllocError>
    ensures { (before : Trace) → IsHistoryOf history.now (entries before)
        → IsBook (entries before) → AreAsksOf asks.now before
        → IfOk result (λ is. IsTrue is ↔ ComesInOrder before place entry.now) }
{
    if place == 0 {
        return Ok(false);
    }
    if place - 1 != history.entered() {
        return Ok(false);
    }
    if !history.is_next(entry) {
        return Ok(false);
    }
    asks.was_asked(alloc, entry)
}

// Whether the partner acknowledged an update that a server answers.
fn is_acknowledged(servers: &Servers, network: &Network, server: ServerId, index: u64) -> bool
    ensures { (before : Trace) → AreServersOf servers.now before → IsNetworkOf network.now before
        → IsTrue result ↔ HasAcknowledged before server index }
{
    let Some(state) = servers.last(server) else {
        return false;
    };
    let Role::Leads(partner) = state.role else {
        return false;
    };
    if !servers.has_shown(partner, state.accepted, index) {
        return false;
    }
    if network.has_acked(partner, server, state.accepted, index) {
        return true;
    }
    servers.has_opened_with(server, state.accepted, index)
}

// Whether a server that answers a read has an unexpired promise.
fn has_promise(servers: &Servers, network: &Network, clocks: &Clocks, server: ServerId) -> bool
    ensures { (before : Trace) → AreServersOf servers.now before → IsNetworkOf network.now before
        → AreClocksOf clocks.now before → IsTrue result ↔ HasPromise before server }
{
    let Some(state) = servers.last(server) else {
        return false;
    };
    let Role::Leads(partner) = state.role else {
        return false;
    };
    network.has_promised(partner, server, state.accepted, clocks.read(server))
}

// Whether an answer is that of an entered update, or of the read that was entered just before.
fn is_answer(
    alloc: Global,
    history: &History,
    under_way: &UnderWay,
    client: u32,
    number: u64,
    index: u64,
    reply: &Reply,
) -> Result<bool, AllocError>
    ensures { (before : Trace) → IsHistoryOf history.now (entries before)
        → IsBook (entries before) → IsUnderWay under_way.now before
        → IfOk result (λ is. IsTrue is
        ↔ IsReplyIn (step_under_way before) before client number index reply.now) }
{
    if under_way.is_reading() {
        under_way.is_reply(alloc, client, number, reply)
    } else {
        history.has_reply(alloc, client, number, index, reply)
    }
}

impl Checker {
    /// No line was read.
    pub fn new(alloc: Global) -> Result<Checker, AllocError>
        ensures { IfOk result (λ checker. Saw checker []) }
    {
        Ok(Checker {
            tree: PlainTree::new(alloc)?,
            history: History::new(alloc),
            asks: Asks::new(alloc),
            network: Network::new(alloc),
            servers: Servers::new(alloc),
            clocks: Clocks::new(),
            under_way: UnderWay::new(),
        })
    }

    fn judge_entered(
        &mut self,
        alloc: Global,
        place: u64,
        entry: &BookEntry,
    ) -> Result<Option<Breach>, AllocError>
        ensures { (before : Trace) → Saw self.old before
            → IfOk result (λ verdict. IsVerdict before (line.Entered place entry.now) verdict
            × FollowsLine before (line.Entered place entry.now) self.old self.new) }
    {
        let reply = self
            .tree
            .apply(alloc, entry.cred, &entry.call, entry.stamp)?;
        if !same_reply(alloc, &reply, &entry.reply)? {
            return Ok(Some(Breach::Book));
        }
        if !is_in_order(alloc, &self.history, &self.asks, place, entry)? {
            return Ok(Some(Breach::Order));
        }
        Ok(None)
    }

    fn judge_answered(
        &self,
        alloc: Global,
        server: ServerId,
        client: u32,
        number: u64,
        index: u64,
        reply: &Reply,
    ) -> Result<Option<Breach>, AllocError>
        ensures { (before : Trace) → Saw self.now before
            → IfOk result (λ verdict.
            IsVerdict before (line.Answered server client number index reply.now) verdict) }
    {
        if !is_answer(
            alloc,
            &self.history,
            &self.under_way,
            client,
            number,
            index,
            reply,
        )? {
            return Ok(Some(Breach::Answer));
        }
        if self.under_way.is_reading() {
            if has_promise(&self.servers, &self.network, &self.clocks, server) {
                return Ok(None);
            }
            return Ok(Some(Breach::Promise));
        }
        if is_acknowledged(&self.servers, &self.network, server, index) {
            return Ok(None);
        }
        Ok(Some(Breach::Ack))
    }

    fn judge(&mut self, alloc: Global, line: &Line) -> Result<Option<Breach>, AllocError>
        ensures { (before : Trace) → Saw self.old before
            → IfOk result (λ verdict. IsVerdict before line.now verdict
            × FollowsLine before line.now self.old self.new) }
    {
        match line {
            Line::Entered { place, entry } => self.judge_entered(alloc, *place, entry),
            Line::Answered {
                server,
                client,
                number,
                index,
                reply,
            } => self.judge_answered(alloc, *server, *client, *number, *index, reply),
            _ => Ok(None),
        }
    }

    fn take(&mut self, alloc: Global, line: &Line) -> Result<(), AllocError>
        ensures { (before : Trace) (earlier : CheckerValue) → Saw earlier before
            → length before < 2 ^ 40
            → FollowsLine before line.now earlier self.old → IsVerdict before line.now None
            → OnOk result (Saw self.new (before ++ line.now ∷ [])) }
    {
        self.history.take(alloc, line)?;
        self.asks.take(alloc, line)?;
        self.network.take(line)?;
        self.servers.take(line)?;
        self.under_way.take(alloc, line)?;
        self.clocks.take(line);
        Ok(())
    }

    /// How many calls are entered.
    pub fn entered(&self) -> u64
        ensures { (before : Trace) → Saw self.now before → result ≡ length (entries before) }
    {
        self.history.entered()
    }

    /// What the next line breaks, if anything: of several breaches the first. After a breach, and
    /// where memory runs out, nothing is said of further lines.
    pub fn line(&mut self, alloc: Global, line: &Line) -> Result<Option<Breach>, AllocError>
        ensures verdict { (before : Trace) → Saw self.old before
            → IfOk result (λ breach. IsVerdict before line.now breach) }
        ensures accepted { (before : Trace) → Saw self.old before
            → IfOk result (λ breach. breach ≡ None ↔ IsAccepted (before ++ line.now ∷ [])) }
        ensures goes_on { (before : Trace) → Saw self.old before → length before < 2 ^ 40
            → IfOk result (λ breach. breach ≡ None → Saw self.new (before ++ line.now ∷ [])) }
    {
        match self.judge(alloc, line)? {
            Some(breach) => Ok(Some(breach)),
            None => {
                self.take(alloc, line)?;
                Ok(None)
            }
        }
    }
}
