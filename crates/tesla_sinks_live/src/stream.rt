//! A stream socket at which a reader listens.

use std::io::Write;
use std::net::Net;
use std::os::unix::net::{SocketAddr, UnixStream};
use tesla_reports::Cause;

/// The path of a socket, and the connection to whoever listens there, if there is one.
#[derive(Drop)]
pub struct Stream {
    address: SocketAddr,
    connection: Option<UnixStream>,
}

/// A stream to the socket at this path, which isn't connected yet. Refused is a path that is empty, has more than 107 bytes, or
/// has a byte 0.
pub fn stream_to(path: &str) -> Result<Stream, Cause> {
    if path.is_empty() {
        return Err(Cause::Form("a socket is unix:PATH"));
    }
    Ok(Stream {
        address: SocketAddr::from_pathname(path)?,
        connection: None,
    })
}

impl Stream {
    /// Writes a record whole to the reader that is connected; where that has gone, to one that listens now. It waits while a
    /// reader that is connected has no room. It fails where nobody listens, and then no reader that comes later has any of it.
    pub(crate) fn write<R: Net>(&mut self, rt: &R, record: &[u8]) -> Result<(), Cause> {
        if let Some(connection) = &mut self.connection {
            if connection.write_all(record).is_ok() {
                return Ok(());
            }
            self.connection = None;
        }
        let mut connection = UnixStream::connect_addr(rt, &self.address)?;
        connection.write_all(record)?;
        self.connection = Some(connection);
        Ok(())
    }
}
