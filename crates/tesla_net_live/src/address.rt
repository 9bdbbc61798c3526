//! The socket of a link.

ghost use Rattle.libc.specs.Net.{SockOption};
ghost use Rattle.std.specs.Prelude.{◌≤◌, pos};

use libc::net as c;
use os::FromRawFd;
use std::io;
use std::io::ErrorKind;
use std::net::{Net, SocketAddr, ToSocketAddrs, UdpSocket};
use std::os::fd::{AsRawFd, RawFd};

/// For how many bytes of datagrams that wait the system is asked.
const BUFFER: i32 = 4 << 20;

/// A socket that is bound to the address, of several addresses to the first that can be had. Several programs may be
/// bound to one address of a multicast group.
pub(crate) fn bound<R: Net>(rt: &R, address: &str) -> io::Result<UdpSocket> {
    let mut last = io::Error::from(ErrorKind::InvalidInput);
    for at in address.to_socket_addrs(rt)? {
        match bound_at(rt, at) {
            Ok(socket) => return Ok(socket),
            Err(error) => last = error,
        }
    }
    Err(last)
}

// A socket that is bound to this address, and that others may be bound to as well where it is of a group.
fn bound_at<R: Net>(rt: &R, at: SocketAddr) -> io::Result<UdpSocket> {
    if at.ip().is_multicast() {
        bound_beside_others(at)
    } else {
        UdpSocket::bind(rt, at)
    }
}

// The same of a socket that others may be bound to at the same address.
fn bound_beside_others(at: SocketAddr) -> io::Result<UdpSocket> {
    let family = if at.is_ipv4() {
        c::AF_INET
    } else {
        c::AF_INET6
    };
    let made = unsafe { c::socket(family, c::SOCK_DGRAM | c::SOCK_CLOEXEC, 0) };
    let socket = owned(made)?;
    set(&socket, c::SO_REUSEADDR, 1);
    let (bytes, length) = spelled(at);
    if unsafe { c::bind(socket.as_raw_fd(), &bytes, length) } < 0 {
        return Err(io::Error::from_raw_os_error(os::errno()));
    }
    Ok(socket)
}

// The socket of this number, or the system's error where it gave none.
fn owned(made: RawFd) -> io::Result<UdpSocket> {
    if made < 0 {
        return Err(io::Error::from_raw_os_error(os::errno()));
    }
    Ok(unsafe { UdpSocket::from_raw_fd(made) })
}

// An address as the bytes of C's `sockaddr_in` or `sockaddr_in6`, and how many there are.
fn spelled(at: SocketAddr) -> ([u8; c::_SS_SIZE], u32)
    ensures { result.1 ≤ 28 }
{
    let mut bytes = [0u8; c::_SS_SIZE];
    bytes[2..4].copy_from_slice(&at.port().to_be_bytes());
    match at {
        SocketAddr::V4(at) => {
            bytes[..2].copy_from_slice(&2u16.to_ne_bytes());
            bytes[4..8].copy_from_slice(&at.ip().octets());
            (bytes, 16)
        }
        SocketAddr::V6(at) => {
            bytes[..2].copy_from_slice(&10u16.to_ne_bytes());
            bytes[8..24].copy_from_slice(&at.ip().octets());
            bytes[24..28].copy_from_slice(&at.scope_id().to_ne_bytes());
            (bytes, 28)
        }
    }
}

/// Asks for a buffer for datagrams that wait. A socket whose system gives less, or refuses, brings datagrams all the same.
pub(crate) fn ask_for_buffer(socket: &UdpSocket) {
    set(socket, c::SO_RCVBUF, BUFFER);
}

// Sets one of two options of a socket. Whether the system takes it isn't looked at.
fn set(socket: &UdpSocket, option: i32, to: i32)
    requires { SockOption (pos 1) option }
{
    let mut value = [0u8; 16];
    value[..4].copy_from_slice(&to.to_ne_bytes());
    let _ = unsafe { c::setsockopt(socket.as_raw_fd(), c::SOL_SOCKET, option, &value, 4) };
}
