//! A seat: a client number, as which the calls of one connection at a time are made.

ghost use Rattle.std.specs.Prelude.{◌≡◌, ◌++◌, drop, true, Some, IfOk, OnErr, OnOk};
ghost use Rattle.rpc_door.specs.Serving.{sent};
ghost use Rattle.nfs_door.specs.Steps.{after};
ghost use Rattle.group_client.specs.Rule.{said};
ghost use Rattle.door_seats.specs.Events.{empty_seat};
ghost use Rattle.door_seats.specs.Kept.{Kept, answer_of, with_answer};
ghost use Rattle.door_seats.specs.Moving.{HasMoved, IsUsable, ask_of};
ghost use Rattle.door_seats.specs.Seats.{arrived, asking, asks_for, begun_by, call_of, come};
ghost use Rattle.door_seats.specs.Seats.{followed, gone, hears, is_leaving, is_ready, left, lost};
ghost use Rattle.door_seats.specs.Seats.{over, refused, reminded, settled, time_at, waiting};
ghost use Rattle.door_seats.specs.Seats.{with_unread};
ghost use Rattle.door_seats.specs.declared.seat.Line.TheVariants as line;
ghost use Rattle.door_seats.specs.declared.seat.Visit.{Visit as Visited};

use crate::byte_queue::ByteQueue;
use crate::kept::KeptAnswers;
use crate::request::Request;
use crate::rule::Moment;
use client_calls::{Ticket, Wait, peer_of};
use group_client::{News, Replied, ask_bytes, said};
use harp_types::{Bytes, Peer, ServerId, Time};
use nfs_door::{Errand, Step, begin, go_on};
use rpc_door::put_sent;
use std::alloc::{AllocError, Global};
use wire::Message;

/// A record whose call is on its way. Its drop is written out, so that each place where one is
/// dropped is a call.
pub struct Visit {
    pub request: Request,
    pub errand: Errand,
    pub number: u64,
    pub wait: Wait,
}

impl Drop for Visit {
    fn drop(self) {
        let Visit {
            request: _,
            errand: _,
            number: _,
            wait: _,
        } = self;
    }
}

impl Visit {
    /// Its record; its call is over.
    fn into_request(self) -> Request
        ensures { result ≡ self.request }
    {
        let Visit {
            request,
            errand: _,
            number: _,
            wait: _,
        } = self;
        request
    }
}

/// How it stands with the connection of a seat.
#[derive(Clone, Copy, PartialEq, Eq)]
pub enum Line {
    /// There is none.
    Free,
    /// More may come over it.
    Open,
    /// No more comes.
    Over,
    /// All that came is answered, and it is to be ended.
    Done,
    /// It takes no more.
    Lost,
}

/// A datagram that is to be sent to a server.
#[derive(Drop)]
pub struct Ask {
    pub to: Peer,
    pub bytes: Bytes,
}

/// A client, as which the calls of one connection at a time are made, one after the other.
#[derive(Drop)]
pub struct Seat {
    pub client: u32,
    /// The number of the next call.
    pub next: u64,
    /// Where it is asked first.
    pub place: ServerId,
    pub line: Line,
    /// Whether no record is at the front of what is unread.
    pub is_settled: bool,
    /// What came and isn't part of a record that was begun.
    pub unread: ByteQueue,
    /// What is to be handed to the connection.
    pub unsent: ByteQueue,
    pub visit: Option<Visit>,
}

/// No more bytes of a connection are taken while so many aren't read.
const MOST_UNREAD: usize = 65_536;

/// A moment in milliseconds, as NFS tells it.
fn time_at(now: u64) -> Time
    ensures { result ≡ time_at now }
{
    Time {
        seconds: (now / 1000 % (1 << 32)) as u32,
        micros: (now % 1000 * 1000) as u32,
    }
}

/// An answer as it is sent.
fn sent(alloc: Global, answer: &[u8]) -> Result<Vec<u8>, AllocError>
    ensures { IfOk result (λ v. v.items ≡ sent answer.now) }
{
    let mut out = Vec::new(alloc);
    put_sent(&mut out, answer)?;
    Ok(out)
}

impl Seat {
    /// The empty seat of a client, whose first call has this number.
    pub fn new(alloc: Global, client: u32, first: u64) -> Seat
        ensures { result ≡ empty_seat client first }
    {
        Seat {
            client,
            next: first,
            place: ServerId::Zero,
            line: Line::Free,
            is_settled: true,
            unread: ByteQueue::new(alloc),
            unsent: ByteQueue::new(alloc),
            visit: None,
        }
    }

    /// A connection takes it.
    pub fn arrive(&mut self)
        ensures { self.new ≡ arrived self.old }
    {
        self.line = Line::Open;
        self.is_settled = true;
        self.unread.clear();
        self.unsent.clear();
    }

    /// Whether more bytes of its connection are taken.
    pub fn has_room(&self) -> bool
        ensures { result ≡ true → self.now.line ≡ line.Open }
    {
        self.line == Line::Open && self.unread.len() < MOST_UNREAD
    }

    /// Bytes came over its connection.
    pub fn come(&mut self, bytes: &[u8]) -> Result<(), AllocError>
        ensures came { OnOk result (self.new ≡ come bytes.now self.old) }
        ensures kept { OnErr result (self.new ≡ self.old) }
    {
        self.unread.extend(bytes)?;
        self.is_settled = false;
        Ok(())
    }

    /// No more come.
    pub fn end(&mut self)
        ensures { self.new ≡ over self.old }
    {
        self.line = Line::Over;
        self.is_settled = false;
    }

    /// Its connection took so many bytes.
    pub fn go(&mut self, count: usize)
        ensures { self.new ≡ gone (drop count self.old.unsent) self.old }
    {
        self.unsent.drop_front(count);
    }

    /// Its connection takes no more.
    pub fn lose(&mut self)
        ensures { self.new ≡ lost self.old }
    {
        self.line = Line::Lost;
        self.unread.clear();
        self.unsent.clear();
    }

    /// Whether its connection is to be ended: all is answered and taken, or no more is taken and no
    /// call is on its way.
    pub fn is_leaving(&self) -> bool
        ensures { result ≡ is_leaving self.now }
    {
        match self.line {
            Line::Free => false,
            Line::Open => false,
            Line::Over => false,
            Line::Done => true,
            Line::Lost => self.visit.is_none(),
        }
    }

    /// Its connection is ended.
    pub fn leave(&mut self)
        ensures { self.new ≡ left self.old }
    {
        self.line = Line::Free;
        self.unread.clear();
        self.unsent.clear();
    }

    /// Whether its next record may be begun.
    pub fn is_ready(&self) -> bool
        ensures { result ≡ is_ready self.now }
    {
        matches!(self.line, Line::Open | Line::Over)
            && !self.is_settled
            && self.visit.is_none()
            && self.unsent.is_empty()
    }

    /// Whether this record's call is on its way.
    pub fn asks_for(&self, request: &[u8]) -> bool
        ensures { result ≡ asks_for request.now self.now }
    {
        match &self.visit {
            Some(visit) => visit.request.as_slice() == request,
            None => false,
        }
    }

    /// No record is at the front of what came.
    pub fn settle(&mut self)
        ensures { self.new ≡ settled self.old }
    {
        self.is_settled = true;
        if self.line == Line::Over {
            self.line = Line::Done;
        }
    }

    /// The record at the front is too large.
    pub fn refuse(&mut self)
        ensures { self.new ≡ refused self.old }
    {
        self.is_settled = true;
        self.line = Line::Done;
    }

    /// Begins the record that stands in the first bytes, so many: its kept answer is given again,
    /// and where there is none, its first step is taken.
    pub fn begin(
        &mut self,
        alloc: Global,
        moment: Moment,
        request: Request,
        taken: usize,
        kept: &mut KeptAnswers,
    ) -> Result<Option<Ask>, AllocError>
        requires { IsUsable moment }
        ensures moves { IfOk result (λ ask. HasMoved ask self.new kept.new (begun_by moment
            request (with_unread (drop taken self.old.unread) self.old) kept.old
            (answer_of request kept.old))) }
        ensures client { self.new.client ≡ self.old.client }
    {
        self.unread.drop_front(taken);
        if let Some(answer) = kept.answer_of(&request) {
            self.unsent.extend(answer.as_slice())?;
            return Ok(None);
        }
        let everyone = moment.rule.everyone;
        let step = begin(alloc, everyone, time_at(moment.now), request.as_slice())?;
        self.follow(alloc, moment, request, step, kept)
    }

    /// Goes on with a record whose next step is this one.
    fn follow(
        &mut self,
        alloc: Global,
        moment: Moment,
        request: Request,
        step: Step,
        kept: &mut KeptAnswers,
    ) -> Result<Option<Ask>, AllocError>
        requires { IsUsable moment }
        ensures moves { IfOk result (λ ask. HasMoved ask self.new kept.new
            (followed moment request self.old kept.old step)) }
        ensures client { self.new.client ≡ self.old.client }
    {
        match step {
            Step::Silent => Ok(None),
            Step::Answer(answer) => {
                self.answer(alloc, request, answer, kept)?;
                Ok(None)
            }
            Step::Call(errand) => {
                let ask = self.call(alloc, moment, request, errand)?;
                Ok(Some(ask))
            }
        }
    }

    /// Answers a record, and keeps the answer.
    fn answer(
        &mut self,
        alloc: Global,
        request: Request,
        answer: Bytes,
        kept: &mut KeptAnswers,
    ) -> Result<(), AllocError>
        ensures unsent { OnOk result (self.new
            ≡ record self.old { unsent = self.old.unsent ++ sent answer }) }
        ensures keeps { OnOk result (kept.new ≡ with_answer request (sent answer) kept.old) }
        ensures client { self.new.client ≡ self.old.client }
    {
        let sent = sent(alloc, answer.as_slice())?;
        self.unsent.extend(sent.as_slice())?;
        kept.keep(request, Bytes::from_vec(sent))?;
        Ok(())
    }

    /// Asks a record's call.
    fn call(
        &mut self,
        alloc: Global,
        moment: Moment,
        request: Request,
        errand: Errand,
    ) -> Result<Ask, AllocError>
        requires { IsUsable moment }
        ensures ask { IfOk result (λ ask. ask ≡ ask_of (record {
          asked = call_of moment self.old errand self.old.next;
          to = self.old.place;
        })) }
        ensures seat { OnOk result (self.new ≡ asking moment.now request errand self.old) }
        ensures client { self.new.client ≡ self.old.client }
    {
        let ask = self.ask(alloc, moment, &errand, self.next, self.place)?;
        self.visit = Some(Visit {
            request,
            errand,
            number: self.next,
            wait: Wait::first(self.place, moment.now),
        });
        self.next = self.next.saturating_add(1);
        Ok(ask)
    }

    /// The datagram that asks a call of a server.
    fn ask(
        &self,
        alloc: Global,
        moment: Moment,
        errand: &Errand,
        number: u64,
        to: ServerId,
    ) -> Result<Ask, AllocError>
        requires { IsUsable moment }
        ensures { IfOk result (λ ask. ask ≡ ask_of
            (record { asked = call_of moment self.now errand.now number; to = to })) }
    {
        let ticket = Ticket {
            port: moment.rule.port,
            client: self.client,
            number,
            cred: errand.cred,
        };
        Ok(Ask {
            to: peer_of(moment.rule.port, to),
            bytes: ask_bytes(alloc, ticket, &errand.call)?,
        })
    }

    /// Its call waits so.
    fn wait(&mut self, wait: Wait)
        ensures { (v : Visited) → self.old.visit ≡ Some v → self.new ≡ waiting wait v self.old }
    {
        if let Some(visit) = &mut self.visit {
            visit.wait = wait;
        }
    }

    /// Asks its call again, where its pause is over.
    pub fn remind(&mut self, alloc: Global, moment: Moment) -> Result<Option<Ask>, AllocError>
        requires { IsUsable moment }
        ensures moves { IfOk result (λ ask. (kept : Kept)
            → HasMoved ask self.new kept (reminded moment self.old kept)) }
        ensures client { self.new.client ≡ self.old.client }
    {
        let Some(visit) = &self.visit else {
            return Ok(None);
        };
        let wait = visit.wait;
        if moment.now < wait.due {
            return Ok(None);
        }
        let ask = self.ask(alloc, moment, &visit.errand, visit.number, wait.place)?;
        self.wait(wait.again(moment.now));
        Ok(Some(ask))
    }

    /// What a message of a server says of a call of its.
    fn news(&self, moment: Moment, by: ServerId, visit: &Visit, message: Message) -> News
        ensures { result
            ≡ said by (call_of moment self.now visit.now.errand visit.now.number) message }
    {
        let ticket = Ticket {
            port: moment.rule.port,
            client: self.client,
            number: visit.number,
            cred: visit.errand.cred,
        };
        said(by, ticket, &visit.errand.call, message)
    }

    /// Goes on with a record whose call is replied to.
    fn resume(
        &mut self,
        alloc: Global,
        moment: Moment,
        visit: Visit,
        replied: Replied,
        kept: &mut KeptAnswers,
    ) -> Result<Option<Ask>, AllocError>
        requires { IsUsable moment }
        ensures moves { IfOk result (λ ask. HasMoved ask self.new kept.new (followed moment
            visit.request (record self.old { place = replied.by }) kept.old
            (after visit.errand replied.reply))) }
        ensures client { self.new.client ≡ self.old.client }
    {
        self.place = replied.by;
        let step = go_on(alloc, &visit.errand, &replied.reply);
        drop(replied);
        let request = visit.into_request();
        self.follow(alloc, moment, request, step?, kept)
    }

    /// Takes what a message of a server says of its call.
    pub fn hear(
        &mut self,
        alloc: Global,
        moment: Moment,
        by: ServerId,
        message: Message,
        kept: &mut KeptAnswers,
    ) -> Result<Option<Ask>, AllocError>
        requires { IsUsable moment }
        ensures moves { IfOk result (λ ask. HasMoved ask self.new kept.new
            (hears moment by message self.old kept.old)) }
        ensures client { self.new.client ≡ self.old.client }
    {
        let Some(mut visit) = self.visit.take() else {
            drop(message);
            return Ok(None);
        };
        match self.news(moment, by, &visit, message) {
            News::Nothing => {
                self.visit = Some(visit);
                Ok(None)
            }
            News::Refused { by, cause } => {
                visit.wait = visit.wait.hinted(by, cause);
                self.visit = Some(visit);
                Ok(None)
            }
            News::Answered(replied) => self.resume(alloc, moment, visit, replied, kept),
        }
    }
}
