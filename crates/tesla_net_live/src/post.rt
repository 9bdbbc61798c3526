//! A post over a UDP socket.

ghost use Rattle.std.specs.Prelude.{◌≡◌, None};

use crate::inherited::{descriptor_in, inherited_connected};
use crate::passing::is_passing;
use std::net::{Ipv4Addr, Ipv6Addr, Net, SocketAddr, ToSocketAddrs, UdpSocket};
use std::{io, str};
use tesla_base::Text;
use tesla_desk::{Post, PostStep};
use tesla_reports::{Cause, Limit, Reporter, Tally, monotonic};

/// A socket, and the address that it sends to. Without one it is connected, and sends to its peer.
#[derive(Drop)]
pub struct Sending {
    socket: UdpSocket,
    to: Option<SocketAddr>,
}

impl Sending {
    // Hands a datagram to the system: how many bytes it took.
    fn send(&self, datagram: &[u8]) -> io::Result<usize> {
        match self.to {
            Some(to) => self.socket.send_to(datagram, to),
            None => self.socket.send(datagram),
        }
    }
}

/// Finds the address of a post's name, `ADDRESS:PORT`, and binds a socket of its family; or takes the socket of one
/// `fd:N`, which the program was started with as the descriptor `N`. Of several addresses the first is taken for which
/// there is a socket. A socket that isn't of UDP or isn't connected is refused.
pub fn direct<R: Net>(rt: &R, name: &str) -> Result<Sending, Cause> {
    match descriptor_in(name) {
        Some(number) => {
            let socket = inherited_connected(number)?;
            Ok(Sending { socket, to: None })
        }
        None => direct_to(rt, name),
    }
}

// The same of an address.
fn direct_to<R: Net>(rt: &R, name: &str) -> Result<Sending, Cause> {
    let mut last = Cause::Form("a post is ADDRESS:PORT, and there is no such address");
    for to in name.to_socket_addrs(rt)? {
        match bind_for(rt, to) {
            Ok(socket) => {
                return Ok(Sending {
                    socket,
                    to: Some(to),
                });
            }
            Err(error) => last = Cause::System(error),
        }
    }
    Err(last)
}

// A socket at some free port, of the family of this address.
fn bind_for<R: Net>(rt: &R, to: SocketAddr) -> io::Result<UdpSocket> {
    match to {
        SocketAddr::V4(_) => UdpSocket::bind(rt, (Ipv4Addr::UNSPECIFIED, 0)),
        SocketAddr::V6(_) => UdpSocket::bind(rt, (Ipv6Addr::UNSPECIFIED, 0)),
    }
}

/// A UDP socket that sends each datagram to one address. What was sent isn't told.
#[derive(Drop)]
pub struct UdpPost<'a, R> {
    /// The name that it was opened under.
    pub name: Text,
    /// How often its calls failed.
    pub faults: u64,
    sending: Sending,
    // What all posts of the run lost, and what this one did.
    unsent: &'a Tally,
    lost: u64,
    reporter: Reporter<'a, R>,
    number: u64,
    limit: Limit,
}

impl<'a, R> UdpPost<'a, R> {
    /// The post of this number, counted from 0, which counts here what the system refused to send.
    pub fn new(
        name: Text,
        sending: Sending,
        unsent: &'a Tally,
        reporter: Reporter<'a, R>,
        number: u64,
    ) -> UdpPost<'a, R>
        ensures name { result.name ≡ name }
        ensures faults { result.faults ≡ 0 }
    {
        UdpPost {
            name,
            faults: 0,
            sending,
            unsent,
            lost: 0,
            reporter,
            number,
            limit: Limit::new(),
        }
    }
}

impl<'a, R: Eprint> UdpPost<'a, R> {
    // Counts a datagram that the system refused to send, and tells of it.
    fn lose(&mut self, cause: &Cause)
        ensures faults { self.new.faults ≡ self.old.faults }
        ensures name { self.new.name ≡ self.old.name }
    {
        self.unsent.raise();
        self.lost = self.lost.saturating_add(1);
        let Some(left_out) = self.limit.admit(monotonic()) else {
            return;
        };
        self.tell_of_pass(cause, left_out);
    }

    /// Tells how many datagrams the system refused to send, where it refused any.
    pub fn tell_lost(&self) {
        if 0 < self.lost {
            let name = str::from_utf8(self.name.bytes()).unwrap_or("");
            self.reporter.unsent(self.number, name, self.lost);
        }
    }

    // Tells that it went on behind an error, and how many such lines were left out.
    fn tell_of_pass(&self, cause: &Cause, left_out: u64) {
        let name = str::from_utf8(self.name.bytes()).unwrap_or("");
        self.reporter
            .passed("post", self.number, name, cause, left_out);
    }

    // Tells that the post failed.
    fn tell(&self, cause: &Cause) {
        let name = str::from_utf8(self.name.bytes()).unwrap_or("");
        self.reporter.failed("post", self.number, name, cause);
    }
}

impl<'a, R: Eprint> Post for UdpPost<'a, R> {
    ghost sent = { λ _. None };

    ghost faults = { λ it. it.faults };

    ghost name = { λ it. it.name };

    /// Asks the system once. An error that passes by itself loses the datagram as on the way: it counts as sent. Any
    /// other error is a fault, an interrupted call too, and so is a datagram that was cut.
    fn send(&mut self, datagram: &[u8]) -> PostStep {
        let cause = match self.sending.send(datagram) {
            Ok(count) if count == datagram.len() => return PostStep::Sent,
            Ok(_) => Cause::Form("the system cut a datagram"),
            Err(error) => {
                let passes = is_passing(&error);
                let cause = Cause::System(error);
                if passes {
                    self.lose(&cause);
                    return PostStep::Sent;
                }
                cause
            }
        };
        self.faults = self.faults.saturating_add(1);
        self.tell(&cause);
        PostStep::Failed
    }
}
