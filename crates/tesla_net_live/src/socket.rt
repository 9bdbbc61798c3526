//! A UDP socket that brings a datagram, or waited for one.

ghost use Rattle.std.specs.Prelude.{◌≡◌, ◌≤◌, IfOk, IfErr, IfSome, None, true, false, if◌then◌else◌};
ghost use Rattle.std.specs.IoError.{error_kind};

use crate::passing::is_passing;
use crate::quiets::WAIT;
use libc::net as c;
use libc::types::pollfd;
use std::io;
use std::io::ErrorKind;
use std::net::UdpSocket;
use std::os::fd::AsRawFd;
use std::time::Duration;
use tesla_base::MOST_DATAGRAM;
use tesla_reports::monotonic;

/// For how many microseconds a receive rests behind an error that passes by itself.
const REST: u64 = 1_000;

/// Why a call brought no datagram, and for how many microseconds it waited.
#[derive(Debug, Drop)]
pub(crate) struct Missed {
    pub(crate) error: io::Error,
    /// Whether the error passes by itself. One that only says that none came is none of these.
    pub(crate) passes: bool,
    pub(crate) waited: u64,
}

impl Missed {
    // By an error behind so long a wait. Where it passes by itself the receive rests, so that asking again is no spin.
    fn by(error: io::Error, waited: u64) -> Missed
        ensures error { error_kind result.error ≡ error_kind error }
        ensures waited { result.waited ≡ (if result.passes then 1000 else waited) }
    {
        let passes = error.kind() != ErrorKind::WouldBlock && is_passing(&error);
        if !passes {
            return Missed {
                error,
                passes,
                waited,
            };
        }
        let _ = c::poll(&mut [], 1);
        Missed {
            error,
            passes,
            waited: REST,
        }
    }
}

/// A socket, and how long it waits for a datagram: 100 milliseconds, until it is told another wait.
#[derive(Drop)]
pub(crate) struct TimedSocket {
    socket: UdpSocket,
    // The wait that it was told last, in microseconds.
    told: Option<u64>,
}

impl TimedSocket {
    /// A socket that was told no wait.
    pub(crate) fn new(socket: UdpSocket) -> io::Result<TimedSocket> {
        socket.set_read_timeout(Some(Duration::from_micros(WAIT)))?;
        Ok(TimedSocket { socket, told: None })
    }

    /// Is told to wait so many microseconds from now on, at least 1 and at most 100,000. The system isn't asked.
    pub(crate) fn wait_at_most(&mut self, microseconds: u64) {
        self.told = Some(microseconds.clamp(1, WAIT));
    }

    /// Asks the system for a datagram. One that was told no wait asks once. One that was told a wait asks first for a
    /// datagram that is there already, and waits only where there is none.
    pub(crate) fn receive(&mut self, into: &mut [u8; MOST_DATAGRAM]) -> Result<usize, Missed>
        ensures fits { IfOk result (λ length. length ≤ 2048) }
        ensures waited { IfErr result (λ missed. missed.waited ≤ 100000) }
        ensures untold { self.old.told ≡ None → IfErr result (λ missed. missed.passes ≡ false → missed.waited ≡ 100000) }
        ensures passing { IfErr result (λ missed. missed.passes ≡ true → missed.waited ≡ 1000) }
    {
        let Some(wait) = self.told else {
            return match self.receive_waiting(into) {
                Ok(length) => Ok(length),
                Err(error) => Err(Missed::by(error, WAIT)),
            };
        };
        if let Some(length) = self.receive_at_once(into) {
            return Ok(length);
        }
        let start = monotonic();
        match self.receive_within(wait, into) {
            Ok(length) => Ok(length),
            Err(error) => {
                // The system may wait longer than it was told.
                let waited = monotonic().saturating_sub(start).max(wait).min(WAIT);
                Err(Missed::by(error, waited))
            }
        }
    }

    // A datagram that is there already.
    fn receive_at_once(&self, into: &mut [u8; MOST_DATAGRAM]) -> Option<usize>
        ensures { IfSome result (λ length. length ≤ 2048) }
    {
        let got = unsafe { c::recv(self.socket.as_raw_fd(), into, c::MSG_DONTWAIT) };
        usize::try_from(got).ok()
    }

    // The next datagram, where it comes in time.
    fn receive_waiting(&self, into: &mut [u8; MOST_DATAGRAM]) -> io::Result<usize>
        ensures { IfOk result (λ length. length ≤ 2048) }
    {
        self.socket.recv(into)
    }

    // The next datagram, where it comes within so many microseconds. The system's own limit to a receive is rounded up
    // to its tick of some milliseconds, and that of a poll to a millisecond.
    fn receive_within(&self, wait: u64, into: &mut [u8; MOST_DATAGRAM]) -> io::Result<usize>
        ensures { IfOk result (λ length. length ≤ 2048) }
    {
        let mut asked = [pollfd {
            fd: self.socket.as_raw_fd(),
            events: c::POLLIN,
            revents: 0,
        }];
        let milliseconds = i32::try_from(wait.div_ceil(1_000)).unwrap_or(i32::MAX);
        let ready = c::poll(&mut asked, milliseconds);
        if ready < 0 {
            return Err(io::Error::from(ErrorKind::Interrupted));
        }
        if ready == 0 {
            return Err(io::Error::from(ErrorKind::WouldBlock));
        }
        self.receive_waiting(into)
    }
}
