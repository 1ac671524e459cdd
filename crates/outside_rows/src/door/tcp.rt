//! Connections over TCP, and clients in this program that dial them.

use crate::digits::bytes_of;
use crate::door::words::put_bytes;
use door_seats::{Connections, Given, Taken, TcpConnections};
use harp_types::Bytes;
use std::alloc::{AllocError, Global};
use std::io::{self, Read, Write};
use std::net::{Ipv4Addr, Net, SocketAddr, TcpListener, TcpStream};
use std::time::{Clock, Duration};

/// So many times something is waited for, a rest each time.
const RESTS: u32 = 2000;

/// A client waits so many seconds for bytes.
const PATIENCE: u64 = 2;

/// It receives so many at once at most.
const ROOM: usize = 64;

/// Connections to a port, and clients of it.
#[derive(Drop)]
struct Played<R> {
    connections: TcpConnections<R>,
    at: SocketAddr,
    clients: Vec<Option<TcpStream>>,
}

/// A step: what is done, with which seat or client, and with which bytes.
#[derive(Clone, Copy)]
struct Doing<'a> {
    word: &'a str,
    number: usize,
    digits: &'a str,
}

/// What came of a step: a line, a count behind a word, or bytes.
#[derive(Drop)]
enum Came {
    Line(&'static str),
    Count(&'static str, usize),
    Bytes(Bytes),
}

fn doing_of(step: &str) -> Doing<'_> {
    let (word, rest) = step.split_once(':').unwrap_or((step, "0"));
    let (number, digits) = rest.split_once(':').unwrap_or((rest, "-"));
    let number = number.parse::<usize>().unwrap_or(0);
    Doing {
        word,
        number,
        digits,
    }
}

/// An address whose port was free.
fn free_address<N: Net<Listener = TcpListener, Stream = TcpStream>>(
    net: &N,
) -> io::Result<SocketAddr> {
    let any = SocketAddr::from((Ipv4Addr::LOCALHOST, 0));
    let listener = TcpListener::bind(net, any)?;
    listener.local_addr()
}

/// Connections to a port that was free. None where it can't be opened.
fn opened<R: Net<Listener = TcpListener, Stream = TcpStream> + Clock + Copy>(
    rt: R,
    alloc: Global,
) -> Option<Played<R>> {
    let at = free_address(&rt).ok()?;
    let mut played = Played {
        connections: TcpConnections::new(rt),
        at,
        clients: Vec::new(alloc),
    };
    if played.connections.open(alloc, at.port()).is_ok() {
        return Some(played);
    }
    drop(played);
    None
}

/// What a client sends.
fn sent(alloc: Global, client: &mut TcpStream, digits: &str) -> Came {
    let bytes = bytes_of(alloc, digits).unwrap_or(Vec::new(alloc));
    match client.write(bytes.as_slice()) {
        Ok(count) => Came::Count("sent", count),
        Err(_) => Came::Line("failed\n"),
    }
}

/// The bytes that a client receives, none where its connection ended.
fn next_bytes(alloc: Global, client: &mut TcpStream) -> io::Result<Bytes> {
    let mut bytes = vec![in alloc; 0; ROOM]?;
    client.set_read_timeout(Some(Duration::from_secs(PATIENCE)))?;
    let count = client.read(bytes.as_mut_slice())?;
    bytes.truncate(count);
    Ok(Bytes::from_vec(bytes))
}

/// What a client receives.
fn received(alloc: Global, client: &mut TcpStream) -> Came {
    match next_bytes(alloc, client) {
        Ok(bytes) => Came::Bytes(bytes),
        Err(_) => Came::Line("failed\n"),
    }
}

/// What was taken at a seat.
fn of_taken(taken: Taken) -> Came {
    match taken {
        Taken::Bytes(bytes) => Came::Bytes(bytes),
        Taken::Nothing => Came::Line("nothing\n"),
        Taken::Over => Came::Line("over\n"),
    }
}

/// What was given there.
fn of_given(given: Given) -> Came {
    match given {
        Given::Some(count) => Came::Count("gave", count),
        Given::Over => Came::Line("over\n"),
    }
}

/// Whether it is so.
fn so(holds: bool, line: &'static str) -> Came {
    if holds {
        Came::Line(line)
    } else {
        Came::Line("not so\n")
    }
}

impl<R: Net<Listener = TcpListener, Stream = TcpStream> + Clock> Played<R> {
    /// Seats one that dialed, which may take some time.
    fn seat(&mut self, seat: usize) -> bool {
        for _ in 0..RESTS {
            if self.connections.accept(seat) {
                return true;
            }
            self.connections.rest();
        }
        false
    }

    /// What comes over a seat's connection, which may take some time.
    fn take(&mut self, alloc: Global, seat: usize) -> Result<Taken, AllocError> {
        for _ in 0..RESTS {
            match self.connections.take(alloc, seat)? {
                Taken::Nothing => self.connections.rest(),
                taken => return Ok(taken),
            }
        }
        Ok(Taken::Nothing)
    }

    /// A client more.
    fn dial(&mut self, net: &R) -> Result<Came, AllocError> {
        match TcpStream::connect(net, self.at) {
            Ok(client) => {
                self.clients.push(Some(client))?;
                Ok(Came::Line("dialed\n"))
            }
            Err(_) => Ok(Came::Line("failed\n")),
        }
    }

    /// A client less.
    fn leave(&mut self, number: usize) -> Came {
        if let Some(client) = self.clients.get_mut(number) {
            *client = None;
        }
        Came::Line("left\n")
    }

    /// What a client does.
    fn at_client(&mut self, alloc: Global, doing: Doing<'_>) -> Came {
        let Some(Some(client)) = self.clients.get_mut(doing.number) else {
            return Came::Line("no client\n");
        };
        if doing.word == "send" {
            sent(alloc, client, doing.digits)
        } else {
            received(alloc, client)
        }
    }

    /// What a seat's connection is given.
    fn give(&mut self, alloc: Global, seat: usize, digits: &str) -> Came {
        let bytes = bytes_of(alloc, digits).unwrap_or(Vec::new(alloc));
        of_given(self.connections.give(seat, bytes.as_slice()))
    }

    /// What is done at a seat.
    fn at_seat(&mut self, alloc: Global, doing: Doing<'_>) -> Result<Came, AllocError> {
        let seat = doing.number;
        match doing.word {
            "seat" => Ok(so(self.seat(seat), "seated\n")),
            "nobody" => Ok(so(!self.connections.accept(seat), "nobody\n")),
            "take" => Ok(of_taken(self.take(alloc, seat)?)),
            "look" => Ok(of_taken(self.connections.take(alloc, seat)?)),
            "give" => Ok(self.give(alloc, seat, doing.digits)),
            "close" => {
                self.connections.close(seat);
                Ok(Came::Line("closed\n"))
            }
            _ => Ok(Came::Line("not so\n")),
        }
    }

    /// What came of a step.
    fn came_of(&mut self, net: &R, alloc: Global, step: &str) -> Result<Came, AllocError> {
        let doing = doing_of(step);
        match doing.word {
            "dial" => self.dial(net),
            "send" => Ok(self.at_client(alloc, doing)),
            "receive" => Ok(self.at_client(alloc, doing)),
            "leave" => Ok(self.leave(doing.number)),
            _ => self.at_seat(alloc, doing),
        }
    }

    /// Steps, and what came of each.
    fn put_steps(
        &mut self,
        net: &R,
        alloc: Global,
        out: &mut String,
        steps: &str,
    ) -> Result<(), AllocError> {
        for step in steps.split(' ') {
            out.push_str(step)?;
            out.push_str(": ")?;
            let came = self.came_of(net, alloc, step)?;
            put_came(alloc, out, came)?;
        }
        Ok(())
    }
}

/// What came of a step, behind it.
fn put_came(alloc: Global, out: &mut String, came: Came) -> Result<(), AllocError> {
    match came {
        Came::Line(line) => out.push_str(line),
        Came::Count(word, count) => {
            out.push_str(format!(in alloc; "{word} {count}\n")?.as_str())
        }
        Came::Bytes(bytes) => put_bytes(alloc, out, bytes.as_slice()),
    }
}

/// Steps of connections to a port, and of clients that dial it, one after the other.
pub(crate) fn put_tcp<R: Net<Listener = TcpListener, Stream = TcpStream> + Clock + Copy>(
    rt: R,
    alloc: Global,
    out: &mut String,
    steps: &str,
) -> Result<(), AllocError> {
    let Some(mut played) = opened(rt, alloc) else {
        return out.push_str("no port\n");
    };
    let done = played.put_steps(&rt, alloc, out, steps);
    drop(played);
    done
}
