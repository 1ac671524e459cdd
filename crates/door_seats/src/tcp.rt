//! Connections over TCP.

ghost use Rattle.std.specs.Prelude.{◌≡◌, None, OnErr};
ghost use Rattle.std.specs.Io.{ReadsAtMost};
ghost use Rattle.harp_types.specs.Streams.{Rose};

use crate::connections::{Connections, Given, Taken};
use crate::hall::SEATS;
use harp_types::{Bytes, Failed};
use std::alloc::{AllocError, Global};
use std::io::{self, ErrorKind, Read, Write};
use std::net::{Ipv4Addr, Net, SocketAddr, SocketAddrV4, TcpListener, TcpStream};
use std::thread;
use std::time::{Clock, Duration};

/// So many bytes are taken at once at most.
const ROOM: usize = 32_768;

/// How long a door rests, in milliseconds.
const REST: u64 = 1;

/// A connection over which nothing came or went for so many milliseconds may be ended for another
/// one that waits.
const LONG_SILENCE: u64 = 30_000;

/// A connection at its seat.
#[derive(Drop)]
struct Seated {
    stream: TcpStream,
    /// When bytes came or went last, in milliseconds of the monotonic clock.
    since: u64,
    /// Whether it was told to be over for one that waits.
    gives_way: bool,
}

impl Seated {
    /// Takes bytes that came.
    fn read(&mut self, now: u64, room: &mut [u8]) -> io::Result<usize>
        ensures { ReadsAtMost result room.new }
    {
        let count = self.stream.read(room)?;
        self.since = now;
        Ok(count)
    }

    /// Hands it bytes, as many of the first ones as it takes now.
    fn write(&mut self, now: u64, bytes: &[u8]) -> io::Result<usize> {
        let count = self.stream.write(bytes)?;
        self.since = now;
        Ok(count)
    }
}

/// A port that is open, and who sits where.
#[derive(Drop)]
struct OpenPort {
    listener: TcpListener,
    seated: Vec<Option<Seated>>,
    /// Room for what comes.
    room: Vec<u8>,
    /// The connection that waits longest, where it was looked for.
    waiting: Option<TcpStream>,
    /// Whether a seat was promised to it.
    is_promised: bool,
}

/// Connections to a port at 127.0.0.1. They tell nothing, and count where it can't be opened. Those
/// that find no seat wait in the system's queue, and one of them here. No call waits for bytes. A
/// connection that is silent for long keeps its seat until another one waits: then it is over, one
/// for each that waits.
#[derive(Drop)]
pub struct TcpConnections<R> {
    rt: R,
    open: Option<OpenPort>,
    faults: u64,
}

/// Whether an error says that a call would have to wait.
fn would_wait(kind: ErrorKind) -> bool {
    matches!(kind, ErrorKind::WouldBlock | ErrorKind::Interrupted)
}

/// The milliseconds of the monotonic clock, 0 where nobody knows them.
fn steady_now<R: Clock>(rt: &R) -> u64 {
    match rt.monotonic() {
        Ok(time) => u64::try_from(time.as_millis()).unwrap_or(0),
        Err(_) => 0,
    }
}

/// The connection that waits longest. One that can't be used is let go.
fn next_of(listener: &TcpListener) -> Option<TcpStream> {
    let (stream, _) = listener.accept().ok()?;
    stream.set_nonblocking(true).ok()?;
    // An answer that is held back for more to come is late, and no worse.
    let _ = stream.set_nodelay(true);
    Some(stream)
}

/// A listener at a port, none of whose calls waits.
fn listening<R: Net<Listener = TcpListener, Stream = TcpStream>>(
    rt: &R,
    port: u16,
) -> io::Result<TcpListener> {
    let at = SocketAddr::V4(SocketAddrV4::new(Ipv4Addr::LOCALHOST, port));
    let listener = TcpListener::bind(rt, at)?;
    listener.set_nonblocking(true)?;
    Ok(listener)
}

/// Seats at which nobody sits.
fn free_seats(alloc: Global) -> Result<Vec<Option<Seated>>, AllocError> {
    let mut seated = Vec::new(alloc);
    for _ in 0..SEATS {
        seated.push(None)?;
    }
    Ok(seated)
}

/// A port, opened.
fn opened<R: Net<Listener = TcpListener, Stream = TcpStream>>(
    rt: &R,
    alloc: Global,
    port: u16,
) -> io::Result<OpenPort> {
    let seated = free_seats(alloc)?;
    let room = vec![in alloc; 0; ROOM]?;
    Ok(OpenPort {
        listener: listening(rt, port)?,
        seated,
        room,
        waiting: None,
        is_promised: false,
    })
}

impl OpenPort {
    /// Looks for one that waits.
    fn look(&mut self) {
        if self.waiting.is_none() {
            self.waiting = next_of(&self.listener);
        }
    }

    /// Seats one that waits, where one does.
    fn accept(&mut self, now: u64, seat: usize) -> bool {
        self.look();
        let Some(place) = self.seated.get_mut(seat) else {
            return false;
        };
        let Some(stream) = self.waiting.take() else {
            return false;
        };
        self.is_promised = false;
        *place = Some(Seated {
            stream,
            since: now,
            gives_way: false,
        });
        true
    }

    /// What came over a seat's connection.
    fn take(&mut self, alloc: Global, now: u64, seat: usize) -> Result<Taken, AllocError> {
        let Some(Some(seated)) = self.seated.get_mut(seat) else {
            return Ok(Taken::Over);
        };
        match seated.read(now, self.room.as_mut_slice()) {
            Ok(0) => Ok(Taken::Over),
            Ok(count) => {
                let bytes = Vec::from_slice(alloc, &self.room[..count])?;
                Ok(Taken::Bytes(Bytes::from_vec(bytes)))
            }
            Err(e) if would_wait(e.kind()) => Ok(self.silent(now, seat)),
            Err(_) => Ok(Taken::Over),
        }
    }

    /// What a connection gives that sent nothing: where it is silent for long and another one waits
    /// to whom no seat was promised yet, it is over.
    fn silent(&mut self, now: u64, seat: usize) -> Taken {
        let Some(Some(seated)) = self.seated.get(seat) else {
            return Taken::Over;
        };
        if now.saturating_sub(seated.since) < LONG_SILENCE || self.is_promised {
            return Taken::Nothing;
        }
        self.look();
        if self.waiting.is_none() {
            return Taken::Nothing;
        }
        self.is_promised = true;
        if let Some(Some(seated)) = self.seated.get_mut(seat) {
            seated.gives_way = true;
        }
        Taken::Over
    }

    /// Hands bytes to a seat's connection. One that gives way is waited for no more.
    fn give(&mut self, now: u64, seat: usize, bytes: &[u8]) -> Given {
        let Some(Some(seated)) = self.seated.get_mut(seat) else {
            return Given::Over;
        };
        match seated.write(now, bytes) {
            Ok(count) => Given::Some(count),
            Err(e) if would_wait(e.kind()) && !seated.gives_way => Given::Some(0),
            Err(_) => Given::Over,
        }
    }

    /// Ends a seat's connection.
    fn close(&mut self, seat: usize) {
        if let Some(place) = self.seated.get_mut(seat) {
            *place = None;
        }
    }
}

impl<R> TcpConnections<R> {
    ghost use Rattle.door_seats.specs.Adapters.{connection_faults};

    /// Connections to no port yet.
    pub fn new(rt: R) -> TcpConnections<R>
        ensures { connection_faults result ≡ 0 }
    {
        TcpConnections {
            rt,
            open: None,
            faults: 0,
        }
    }

    // Counts a fault.
    fn fault(&mut self) -> Failed
        ensures { Rose (connection_faults self.old) (connection_faults self.new) }
    {
        self.faults = self.faults.saturating_add(1);
        Failed
    }
}

impl<R: Net<Listener = TcpListener, Stream = TcpStream> + Clock> Connections for TcpConnections<R> {
    ghost use Rattle.door_seats.specs.Adapters.{connection_faults};

    ghost told = { λ _. None };

    ghost faults = { connection_faults };

    fn open(&mut self, alloc: Global, port: u16) -> Result<(), Failed>
        ensures rose { OnErr result
            (Rose (connection_faults self.old) (connection_faults self.new)) }
    {
        match opened(&self.rt, alloc, port) {
            Ok(open) => {
                self.open = Some(open);
                Ok(())
            }
            Err(_) => Err(self.fault()),
        }
    }

    fn accept(&mut self, seat: usize) -> bool {
        match &mut self.open {
            Some(open) => open.accept(steady_now(&self.rt), seat),
            None => false,
        }
    }

    fn take(&mut self, alloc: Global, seat: usize) -> Result<Taken, AllocError> {
        match &mut self.open {
            Some(open) => open.take(alloc, steady_now(&self.rt), seat),
            None => Ok(Taken::Over),
        }
    }

    fn give(&mut self, seat: usize, bytes: &[u8]) -> Given {
        match &mut self.open {
            Some(open) => open.give(steady_now(&self.rt), seat, bytes),
            None => Given::Over,
        }
    }

    fn close(&mut self, seat: usize) {
        if let Some(open) = &mut self.open {
            open.close(seat);
        }
    }

    fn rest(&mut self) {
        thread::sleep(&self.rt, Duration::from_millis(REST));
    }
}
