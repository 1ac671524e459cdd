//! What a line of a trace says.

use crate::step::Step;
use harp_types::{Attr, BookEntry, Bounded, Cause, Held, Reply, ServerId, StateLine, ViewNo};

/// What a trace shows of a message from one server to another.
#[derive(Clone, Copy, PartialEq, Eq)]
pub enum ShownMessage {
    Invite {
        view: ViewNo,
    },
    /// What the sender has, the view that it accepted, its numbers and its horizon.
    Join {
        view: ViewNo,
        held: Held,
        accepted: ViewNo,
        base: u64,
        lb: u64,
        cp: u64,
        top: u64,
        horizon: u64,
    },
    /// The choice of a view.
    Form {
        view: ViewNo,
        leader: ServerId,
        partner: ServerId,
        source: ServerId,
        base: u64,
        cp: u64,
        start: u64,
        horizon: u64,
    },
    /// The first index that is wanted.
    Fetch {
        view: ViewNo,
        first: u64,
    },
    /// So many records, the first with this index.
    Give {
        view: ViewNo,
        first: u64,
        records: u64,
    },
    /// The sender's LB.
    Formed {
        view: ViewNo,
        lb: u64,
    },
    /// A record with this index, of this client and number; the leader's CP and base.
    Event {
        view: ViewNo,
        index: u64,
        cp: u64,
        base: u64,
        client: u32,
        number: u64,
    },
    /// The leader's CP and base.
    Beat {
        view: ViewNo,
        cp: u64,
        base: u64,
    },
    /// The partner's top and LB, and the moment until which it promises to help no other view.
    Ack {
        view: ViewNo,
        top: u64,
        lb: u64,
        until: u64,
    },
    Demote {
        view: ViewNo,
    },
}

/// Why a line of a schedule ends the run.
#[derive(Clone, Copy, PartialEq, Eq)]
pub enum LineFault {
    /// No step is spelled so.
    Grammar,
    /// The line has more than 20,000 bytes.
    TooLong,
    /// It is a line past the 50,000th.
    TooMany,
    /// No packet has the number.
    NoPacket,
    /// The server is down.
    ServerDown,
    /// The server to boot is up.
    ServerUp,
    /// The clock would go back.
    ClockBack,
    /// Two clocks would be more than 50 milliseconds apart.
    ClockApart,
    /// The bytes of a noise are a message.
    NoiseIsMessage,
    /// The packets sent take too many bytes.
    NetFull,
}

/// One line of a trace.
#[derive(Drop)]
pub enum Line {
    /// A step begins. The lines up to the next event line are what it gave.
    Event {
        step: Step,
    },
    /// A call is entered in the book, as its entry of this place, from 1.
    Entered {
        place: u64,
        entry: BookEntry,
    },
    /// A client is answered: for an update its index, for a read the number of updates committed.
    Answered {
        server: ServerId,
        client: u32,
        number: u64,
        index: u64,
        reply: Reply,
    },
    /// A client is refused.
    Refused {
        server: ServerId,
        client: u32,
        number: u64,
        cause: Cause,
    },
    /// A packet is sent, with the next number from 0.
    Sent {
        packet: u64,
        from: ServerId,
        to: ServerId,
        message: ShownMessage,
    },
    /// The server that stepped has another state than before.
    State {
        server: ServerId,
        state: StateLine,
    },
    /// The server that stepped is down now.
    Down {
        server: ServerId,
    },
    /// A server lists its tree after its first `cp` updates. The objects follow, each with its
    /// parts.
    Listed {
        server: ServerId,
        cp: u64,
        objects: u64,
    },
    /// A server that has no tree to list.
    Unlisted {
        server: ServerId,
    },
    Object {
        attr: Attr,
    },
    /// A used slot of a directory, by its place from 0.
    Slot {
        dir: u32,
        slot: u32,
        number: u32,
        name: Bounded<255>,
    },
    /// A block of a file, from 0, whose bytes aren't all zero.
    Block {
        file: u32,
        block: u32,
        bytes: Bounded<4096>,
    },
    /// A link's text.
    Text {
        link: u32,
        text: Bounded<1024>,
    },
    /// The last line, where a line of the schedule (from 1) is refused.
    Bad {
        line: u64,
        fault: LineFault,
    },
    /// The last line, with the number of entered lines.
    End {
        entered: u64,
    },
}
