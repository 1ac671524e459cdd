//! A link in memory, and one over UDP with another host beside it.

ghost use Rattle.std.specs.Prelude.{◌≤◌, length, IfOk};
ghost use Rattle.node_link.specs.Traffic.{last_port};

use crate::digits::bytes_of;
use crate::folder::words::{Answer, came, halves, number, tell, tell_bytes, told};
use harp_types::{Bytes, Peer, ServerId};
use node_link::{Datagram, LAST_PORT, Link, MemLink, UdpLink, Waiting};
use std::alloc::{AllocError, Global};
use std::net::{Ipv4Addr, Net, SocketAddr, UdpSocket};
use std::time::Duration;
use std::{io, time};

const OTHER: Peer = Peer::Other {
    address: 0x7f00_0001,
    port: 9,
};

/// The links of a case, the peer of which a datagram came last, the port of place 0 over UDP, and
/// the socket of another host.
#[derive(Drop)]
pub struct Links<R> {
    memory: MemLink,
    udp: UdpLink<R>,
    last: Peer,
    base: u16,
    host: Option<UdpSocket>,
}

impl<R: Net + time::Clock + Copy> Links<R> {
    /// Links without a datagram or an open place.
    pub(crate) fn new(rt: R, alloc: Global) -> Result<Links<R>, AllocError> {
        Ok(Links {
            memory: MemLink::new(alloc, Vec::new(alloc), Vec::new(alloc))?,
            udp: UdpLink::new(rt),
            last: OTHER,
            base: 0,
            host: None,
        })
    }
}

fn place_of(word: &str) -> Option<ServerId> {
    ServerId::of(u8::try_from(number(word)?).ok()?)
}

fn port_of(word: &str) -> Option<u16> {
    u16::try_from(number(word)?).ok()
}

fn wait_of(word: &str) -> Option<u32> {
    u32::try_from(number(word)?).ok()
}

/// A datagram of another host, told as `PLACE:DIGITS`.
fn waiting_of(alloc: Global, word: &str) -> Option<Waiting> {
    let (place, digits) = word.split_once(':')?;
    let place = place_of(place)?;
    let bytes = Bytes::from_vec(bytes_of(alloc, digits)?);
    let datagram = Datagram { from: OTHER, bytes };
    Some(Waiting { place, datagram })
}

/// Notes a datagram that waits, or the number of a call that fails.
fn note(
    alloc: Global,
    left: &mut Vec<Waiting>,
    fails: &mut Vec<u64>,
    word: &str,
) -> Result<(), AllocError> {
    if let Some(waiting) = waiting_of(alloc, word) {
        left.push(waiting)?;
        return Ok(());
    }
    if let Some(number) = number(word) {
        fails.push(number)?;
    }
    Ok(())
}

/// A link in memory that gives the datagrams of a line, and whose calls with its numbers fail.
fn memory_of(alloc: Global, line: &str) -> Result<MemLink, AllocError> {
    let mut left = Vec::new(alloc);
    let mut fails = Vec::new(alloc);
    for word in line.split(' ') {
        note(alloc, &mut left, &mut fails, word)?;
    }
    MemLink::new(alloc, left, fails)
}

/// Has a link in memory begin anew, as a line says.
fn renew(alloc: Global, memory: &mut MemLink, line: &str) -> Answer {
    match memory_of(alloc, line) {
        Ok(new) => {
            *memory = new;
            Answer::Done
        }
        Err(_) => Answer::NoMemory,
    }
}

/// Tells the bytes of a datagram, and from whom it came.
fn tell_datagram(alloc: Global, datagram: &Datagram, text: &mut String) -> Answer {
    match tell_bytes(alloc, text, datagram.bytes.as_slice()) {
        Answer::Told => {}
        answer => return answer,
    }
    match datagram.from {
        Peer::Server(server) => {
            let server = server.number();
            told(write!(text, " from server {server}"))
        }
        Peer::Local => tell(text, " from this program"),
        Peer::Other { .. } => tell(text, " from another host"),
    }
}

/// What a place receives within so many milliseconds, and from whom.
fn receive<L: Link>(
    alloc: Global,
    link: &mut L,
    last: &mut Peer,
    place: ServerId,
    wait: u32,
    text: &mut String,
) -> Answer {
    match link.receive(alloc, place, wait) {
        Ok(Some(datagram)) => {
            *last = datagram.from;
            tell_datagram(alloc, &datagram, text)
        }
        Ok(None) => tell(text, "nothing"),
        Err(_) => Answer::Failed,
    }
}

/// Sends to a server, or to the peer of which a datagram came last.
fn send<L: Link>(alloc: Global, link: &mut L, last: Peer, place: ServerId, line: &str) -> Answer {
    let (to, digits) = halves(line);
    let to = match place_of(to) {
        Some(server) => Peer::Server(server),
        None => last,
    };
    match bytes_of(alloc, digits) {
        Some(bytes) => came(link.send(alloc, place, to, bytes.as_slice())),
        None => Answer::Nothing,
    }
}

/// Opens a place at a port.
fn bind<L: Link>(link: &mut L, place: ServerId, port: &str) -> Answer {
    match port_of(port) {
        Some(port) if port <= LAST_PORT => came(link.bind(place, port)),
        _ => Answer::Nothing,
    }
}

/// What came of a line about one link.
fn link_answer<L: Link>(
    alloc: Global,
    link: &mut L,
    last: &mut Peer,
    line: &str,
    text: &mut String,
) -> Answer {
    let (word, rest) = halves(line);
    let (place, rest) = halves(rest);
    let Some(place) = place_of(place) else {
        return Answer::Nothing;
    };
    match word {
        "bind" => bind(link, place, rest),
        "receive" => match wait_of(rest) {
            Some(wait) => receive(alloc, link, last, place, wait, text),
            None => Answer::Nothing,
        },
        "send" => send(alloc, link, *last, place, rest),
        _ => Answer::Nothing,
    }
}

/// Opens the three places, where no one else has their ports.
fn opens<L: Link>(link: &mut L, port: u16) -> bool
    requires { port ≤ last_port }
{
    for place in [ServerId::Zero, ServerId::One, ServerId::Two] {
        if link.bind(place, port).is_err() {
            return false;
        }
    }
    true
}

/// A socket at any port of this host.
fn any_socket<N: Net>(rt: &N) -> io::Result<UdpSocket> {
    UdpSocket::bind(rt, SocketAddr::from((Ipv4Addr::LOCALHOST, 0)))
}

/// A port from 1 to 60,000 that may be free.
fn any_port<N: Net>(rt: &N) -> io::Result<u16>
    ensures { IfOk result (λ port. port ≤ last_port) }
{
    let socket = any_socket(rt)?;
    Ok(socket.local_addr()?.port() % 60_000 + 1)
}

/// Opens the three places at ports that are free, and gives the first of them.
fn open_places<L: Link, N: Net>(link: &mut L, rt: &N) -> Option<u16> {
    for _ in 0..20 {
        let base = any_port(rt).ok()?;
        if opens(link, base) {
            return Some(base);
        }
    }
    None
}

impl<R: Net + time::Clock> Links<R> {
    /// Opens the three places at ports that are free, and the other host.
    fn open<N: Net>(&mut self, rt: &N) -> Answer {
        let Some(base) = open_places(&mut self.udp, rt) else {
            return Answer::Failed;
        };
        let Ok(host) = any_socket(rt) else {
            return Answer::Failed;
        };
        self.base = base;
        self.host = Some(host);
        Answer::Done
    }
}

/// Waits for a datagram for a second.
fn received(host: &UdpSocket, bytes: &mut [u8]) -> io::Result<usize>
    ensures { IfOk result (λ count. count ≤ length bytes.new) }
{
    host.set_read_timeout(Some(Duration::from_secs(1)))?;
    let (count, _) = host.recv_from(bytes)?;
    Ok(count)
}

/// What the other host receives within a second.
fn host_receive(alloc: Global, host: &UdpSocket, text: &mut String) -> Answer {
    let mut bytes = [0u8; 64];
    match received(host, &mut bytes) {
        Ok(count) => tell_bytes(alloc, text, &bytes[..count]),
        Err(_) => Answer::Failed,
    }
}

/// Sends from the other host to a place.
fn host_send(host: &UdpSocket, base: u16, place: ServerId, bytes: &[u8]) -> Answer {
    let port = base.saturating_add(u16::from(place.number()));
    came(host.send_to(bytes, SocketAddr::from((Ipv4Addr::LOCALHOST, port))))
}

/// What came of a line about the other host: it receives within a second, or sends to a place.
fn host_answer(
    alloc: Global,
    host: &UdpSocket,
    base: u16,
    line: &str,
    text: &mut String,
) -> Answer {
    let (place, digits) = halves(line);
    let Some(place) = place_of(place) else {
        return host_receive(alloc, host, text);
    };
    match bytes_of(alloc, digits) {
        Some(bytes) => host_send(host, base, place, bytes.as_slice()),
        None => Answer::Nothing,
    }
}

/// How many datagrams a link in memory gave and got.
fn tell_counts(memory: &MemLink, text: &mut String) -> Answer {
    let (taken, sent) = (memory.taken().len(), memory.sent().len());
    told(write!(text, "taken {taken} sent {sent}"))
}

/// What came of a line about links.
pub(crate) fn links_answer<N: Net, R: Net + time::Clock>(
    rt: &N,
    alloc: Global,
    links: &mut Links<R>,
    line: &str,
    text: &mut String,
) -> Answer {
    let (word, rest) = halves(line);
    match word {
        "link" => renew(alloc, &mut links.memory, rest),
        "counts" => tell_counts(&links.memory, text),
        "memory" => link_answer(alloc, &mut links.memory, &mut links.last, rest, text),
        "udp" => link_answer(alloc, &mut links.udp, &mut links.last, rest, text),
        "open" => links.open(rt),
        "host" => match &links.host {
            Some(host) => host_answer(alloc, host, links.base, rest, text),
            None => Answer::Nothing,
        },
        _ => Answer::Nothing,
    }
}
