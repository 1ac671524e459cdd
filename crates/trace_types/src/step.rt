//! What a line of a schedule asks for.

use harp_types::{Bytes, Call, Cred, Pick, ServerId};

/// One step of a schedule.
#[derive(Drop)]
pub enum Step {
    /// A client asks a server. `number` rises from one update of the client to its next.
    Ask {
        server: ServerId,
        client: u32,
        number: u64,
        cred: Cred,
        call: Call,
    },
    /// The packet of this number, from 0, reaches its server. At a server that is down it is lost.
    Deliver {
        packet: u64,
    },
    /// The packets that were never delivered reach their servers in the order of their numbers,
    /// those sent meanwhile too: all of them, or those between two servers.
    Pump {
        among: Option<(ServerId, ServerId)>,
    },
    /// A server does what is due from time to time.
    Tick {
        server: ServerId,
    },
    /// A server begins a view change.
    Suspect {
        server: ServerId,
    },
    /// A server puts the changes of at most so many records on its disk.
    Apply {
        server: ServerId,
        most: u32,
    },
    /// A server syncs its disk.
    Flush {
        server: ServerId,
    },
    /// A server lists its tree.
    List {
        server: ServerId,
    },
    /// A server that is down begins anew.
    Boot {
        server: ServerId,
    },
    /// A server saves its log, and then it is down.
    Power {
        server: ServerId,
    },
    /// So many calls that change the disk pass of the save; then the server is down.
    PowerCut {
        server: ServerId,
        calls: u64,
        pick: Pick,
    },
    /// A server is down without a save.
    Crash {
        server: ServerId,
        pick: Pick,
    },
    /// In the server's next step so many calls that change the disk pass; a step that would make
    /// another one gives nothing, and the server is down.
    Stop {
        server: ServerId,
        calls: u64,
        pick: Pick,
    },
    /// Bytes that are no message reach a server, which drops them.
    Noise {
        server: ServerId,
        bytes: Bytes,
    },
    /// A server's clock is set, in milliseconds.
    Clock {
        server: ServerId,
        reading: u64,
    },
    /// All clocks go on by these milliseconds.
    Advance {
        millis: u64,
    },
    /// Promises of servers that boot later last so many milliseconds.
    Delta {
        millis: u32,
    },
}
