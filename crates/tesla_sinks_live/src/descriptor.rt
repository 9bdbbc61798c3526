//! A descriptor that the program was started with.

ghost use Rattle.std.specs.Prelude.{◌≤◌, ◌≤ℤ◌, IfOk, IfSome, length, pos};

use libc::net as c;
use libc::types::pollfd;
use os::FromRawFd;
use std::fs;
use std::io::{self, ErrorKind};
use std::os::fd::{AsRawFd, OwnedFd, RawFd};
use std::rt::Files;
use tesla_base::read_decimal;
use tesla_reports::Cause;

/// For how many milliseconds a write waits for room at most.
const WAIT: i32 = 100;
/// The least number that may be given: those below are standard input, output and error.
const LEAST: u64 = 3;

/// An open descriptor.
#[derive(Drop)]
pub struct Descriptor {
    fd: OwnedFd,
}

/// The descriptor of this number, with which the program was started. It has to be open to write, and isn't one that the program
/// opened itself: those are the ones that the system closes where another program is started.
pub fn given<R: Files + AllocGlobal>(rt: &R, number: &str) -> Result<Descriptor, Cause> {
    let Some(fd) = number_in(number) else {
        return Err(Cause::Form("a descriptor is fd:N, with a number from 3 on"));
    };
    let Some(flags) = flags_of(rt, fd)? else {
        return Err(Cause::Form("the program wasn't started with this descriptor"));
    };
    if flags & libc::O_CLOEXEC as u64 != 0 {
        return Err(Cause::Form("the program wasn't started with this descriptor"));
    }
    if flags & (libc::O_WRONLY | libc::O_RDWR) as u64 == 0 {
        return Err(Cause::Form("this descriptor isn't open to write"));
    }
    Ok(Descriptor {
        fd: unsafe { OwnedFd::from_raw_fd(fd) },
    })
}

// The number of a descriptor, in digits.
fn number_in(text: &str) -> Option<RawFd>
    ensures { IfSome result (λ fd. pos 3 ≤ℤ fd) }
{
    match read_decimal(text.as_bytes()) {
        Ok(number) if LEAST <= number => RawFd::try_from(number).ok(),
        _ => None,
    }
}

// The flags of an open descriptor, as the system tells them. `None` where there is none of this number.
fn flags_of<R: Files + AllocGlobal>(rt: &R, fd: RawFd) -> io::Result<Option<u64>> {
    let name = format!(in rt.alloc(); "/proc/self/fdinfo/{fd}")?;
    let text = match fs::read_to_string(rt, name.as_str()) {
        Ok(text) => text,
        Err(error) if error.kind() == ErrorKind::NotFound => return Ok(None),
        Err(error) => return Err(error),
    };
    for line in text.as_str().lines() {
        if let Some(digits) = line.strip_prefix("flags:") {
            return Ok(u64::from_str_radix(digits.trim(), 8).ok());
        }
    }
    Ok(None)
}

impl Descriptor {
    /// A descriptor that a call of the system gave, or its error where it gave none.
    pub(crate) fn opened(made: RawFd) -> io::Result<Descriptor> {
        if made < 0 {
            return Err(io::Error::from_raw_os_error(os::errno()));
        }
        Ok(Descriptor {
            fd: unsafe { OwnedFd::from_raw_fd(made) },
        })
    }

    /// Lets a write that finds no room fail, instead of waiting.
    pub(crate) fn set_nonblocking(&self) -> io::Result<()> {
        if os::set_nonblocking(self.fd.as_raw_fd(), true) < 0 {
            return Err(io::Error::from_raw_os_error(os::errno()));
        }
        Ok(())
    }

    /// Asks the system once to write a piece. Where a descriptor that doesn't wait has no room it fails by `WouldBlock`, once there
    /// is some or a tenth of a second is over.
    pub(crate) fn write(&self, piece: &[u8]) -> io::Result<usize>
        ensures { IfOk result (λ count. count ≤ length piece.now) }
    {
        let fd = self.fd.as_raw_fd();
        let count = libc::write(fd, piece);
        if 0 <= count {
            return Ok(count as usize);
        }
        let error = io::Error::from_raw_os_error(os::errno());
        if error.kind() == ErrorKind::WouldBlock {
            let mut asked = [pollfd {
                fd,
                events: c::POLLOUT,
                revents: 0,
            }];
            let _ = c::poll(&mut asked, WAIT);
        }
        Err(error)
    }
}
