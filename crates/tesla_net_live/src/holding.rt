//! A name that one program of the machine holds at a time.

use std::io::ErrorKind;
use std::net::Net;
use std::os::unix::net::{SocketAddr, SocketAddrExt, UnixListener};
use std::rt::Files;
use tesla_reports::Cause;

/// A name that no other program of this machine can hold meanwhile: that of a Unix socket that isn't a file (an abstract
/// one of Linux), which is free again once this is dropped, or the program has ended.
#[derive(Drop)]
pub struct HeldName {
    _socket: UnixListener,
}

/// Holds a name of at most 107 bytes. It is refused where another program holds it.
pub fn hold<R: Files + Net>(rt: &R, name: &[u8]) -> Result<HeldName, Cause> {
    let address = SocketAddr::from_abstract_name(name)?;
    match UnixListener::bind_addr(rt, &address) {
        Ok(socket) => Ok(HeldName { _socket: socket }),
        Err(error) if error.kind() == ErrorKind::AddrInUse => {
            Err(Cause::Form("another feed of this stream runs on this machine"))
        }
        Err(error) => Err(Cause::System(error)),
    }
}
