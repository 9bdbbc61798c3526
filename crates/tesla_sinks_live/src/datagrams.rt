//! A UDP socket that takes a record a datagram.

use std::io;
use std::net::{Ipv4Addr, Ipv6Addr, Net, SocketAddr, ToSocketAddrs, UdpSocket};
use tesla_net_live::is_passing;
use tesla_reports::{Cause, Limit};

/// A socket, and the address that it sends to.
#[derive(Drop)]
pub struct Datagrams {
    socket: UdpSocket,
    to: SocketAddr,
    /// When it was told last that the system refused one.
    pub(crate) limit: Limit,
}

/// What became of a record.
pub(crate) enum Sent {
    /// The system took it.
    Whole,
    /// It is lost as on the way, by an error that passes by itself.
    Lost(Cause),
}

/// Finds the address of `ADDRESS:PORT`, and binds a socket of its family. Of several addresses the first is taken for which there
/// is a socket.
pub fn aim<R: Net>(rt: &R, address: &str) -> Result<Datagrams, Cause> {
    let mut last = Cause::Form(
        "a sink of datagrams is udp:ADDRESS:PORT, and there is no such address",
    );
    for to in address.to_socket_addrs(rt)? {
        match bind_for(rt, to) {
            Ok(socket) => {
                return Ok(Datagrams {
                    socket,
                    to,
                    limit: Limit::new(),
                });
            }
            Err(error) => last = Cause::System(error),
        }
    }
    Err(last)
}

// A socket at some free port, of the family of this address.
fn bind_for<R: Net>(rt: &R, to: SocketAddr) -> io::Result<UdpSocket> {
    match to {
        SocketAddr::V4(_) => UdpSocket::bind(rt, (Ipv4Addr::UNSPECIFIED, 0)),
        SocketAddr::V6(_) => UdpSocket::bind(rt, (Ipv6Addr::UNSPECIFIED, 0)),
    }
}

impl Datagrams {
    /// Asks the system once to send a record. The socket isn't connected, so it is no error that nobody listens at the address.
    pub(crate) fn send(&self, record: &[u8]) -> Result<Sent, Cause> {
        match self.socket.send_to(record, self.to) {
            Ok(count) if count == record.len() => Ok(Sent::Whole),
            Ok(_) => Err(Cause::Form("the system cut a datagram")),
            Err(error) if is_passing(&error) => Ok(Sent::Lost(Cause::System(error))),
            Err(error) => Err(Cause::System(error)),
        }
    }
}
