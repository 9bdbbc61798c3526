//! Sockets that were open when the program was started.

use libc::net as c;
use os::FromRawFd;
use std::io;
use std::net::UdpSocket;
use std::os::fd::{AsRawFd, RawFd};
use tesla_base::read_decimal;
use tesla_reports::Cause;

/// What stands behind the colon in `fd:N`. Of a name of another form there is none.
pub(crate) fn descriptor_in(name: &str) -> Option<&str> {
    name.strip_prefix("fd:")
}

/// The UDP socket of a link that is open as the descriptor of this number, over a descriptor of its own. It has to be
/// bound. Its buffer stays as it is.
pub(crate) fn inherited_bound(number: &str) -> Result<UdpSocket, Cause> {
    let socket = inherited(number)?;
    if socket.local_addr()?.port() == 0 {
        return Err(Cause::Form("the socket isn't bound"));
    }
    Ok(socket)
}

/// The UDP socket of a post that is open as the descriptor of this number, over a descriptor of its own. It has to be
/// connected.
pub(crate) fn inherited_connected(number: &str) -> Result<UdpSocket, Cause> {
    let socket = inherited(number)?;
    let _ = socket.peer_addr()?;
    Ok(socket)
}

// The UDP socket that is open as the descriptor of this number. Its calls wait from now on, also those of others that
// share it.
fn inherited(number: &str) -> Result<UdpSocket, Cause> {
    let socket = duplicate(descriptor(number)?)?;
    if is_of_internet(&socket)? && !is_of_tcp(&socket) {
        socket.set_nonblocking(false)?;
        return Ok(socket);
    }
    Err(Cause::Form("the socket isn't one of UDP"))
}

// The descriptor of this number. Standard output and standard error are none.
fn descriptor(number: &str) -> Result<RawFd, Cause> {
    let Ok(number) = read_decimal(number.as_bytes()) else {
        return Err(Cause::Form("of fd:N, the number of a descriptor, N is no decimal"));
    };
    match i32::try_from(number) {
        Ok(1 | 2) => Err(Cause::Form("descriptors 1 and 2 are where the program prints")),
        Ok(number) => Ok(number),
        Err(_) => Err(Cause::System(io::Error::from_raw_os_error(libc::EBADF))),
    }
}

// A descriptor of its own of the socket that this one is open on. That one stays open.
fn duplicate(descriptor: RawFd) -> io::Result<UdpSocket> {
    let made = os::duplicate(descriptor);
    if made < 0 {
        return Err(io::Error::from_raw_os_error(os::errno()));
    }
    Ok(unsafe { UdpSocket::from_raw_fd(made) })
}

// Whether a socket is one of IPv4 or IPv6. What is no socket is the system's error.
fn is_of_internet(socket: &UdpSocket) -> io::Result<bool> {
    match socket.local_addr() {
        Ok(_) => Ok(true),
        Err(error) if error.raw_os_error().is_some() => Err(error),
        Err(_) => Ok(false),
    }
}

// Whether a socket has the options of TCP.
fn is_of_tcp(socket: &UdpSocket) -> bool {
    let mut value = [0u8; 16];
    let mut length = 4;
    let descriptor = socket.as_raw_fd();
    let asked = unsafe {
        c::getsockopt(
            descriptor,
            c::IPPROTO_TCP,
            c::TCP_NODELAY,
            &mut value,
            &mut length,
        )
    };
    asked == 0
}
