//! Errors of the system's network that pass by themselves: a datagram is lost by them as on the way.

ghost use Rattle.std.specs.Prelude.{◌↔◌, IsTrue};
ghost use Rattle.std.specs.List.{Contains};
ghost use Rattle.tesla_net_live.specs.Passing.{passing};

use std::io;

/// EPERM, EAGAIN, ENETDOWN, ENETUNREACH, ENOBUFS, ECONNREFUSED and EHOSTUNREACH of Linux: a packet filter, a full
/// queue, an interface or a way that isn't there now.
const PASSING: [i32; 7] = [1, 11, 100, 101, 105, 111, 113];

/// Whether an error of this number passes by itself.
pub(crate) fn passes(code: i32) -> bool
    ensures { IsTrue result ↔ Contains passing code }
{
    PASSING.as_slice().contains(&code)
}

/// Whether the system's error passes by itself.
pub fn is_passing(error: &io::Error) -> bool {
    match error.raw_os_error() {
        Some(code) => passes(code),
        None => false,
    }
}
