//! A link over a UDP socket.

ghost use Rattle.std.specs.Prelude.{◌≡◌, ◌⊎◌, ◌+◌, ◌-◌, ◌^◌, min, List, ℕ, None, true};
ghost use Rattle.std.specs.IoError.{error_kind};
ghost use Rattle.tesla_desk.specs.Faults.{HasCause};
ghost use Rattle.tesla_desk.specs.Links.{Gets};

use crate::address::{ask_for_buffer, bound};
use crate::inherited::{descriptor_in, inherited_bound};
use crate::quiets::Quiets;
use crate::socket::{Missed, TimedSocket};
use std::io::ErrorKind;
use std::net::{Net, UdpSocket};
use std::rt::Files;
use std::{io, str};
use tesla_base::{MOST_DATAGRAM, Text, read_decimal};
use tesla_desk::{Got, Link};
use tesla_reports::{Cause, Ending, Limit, Reporter, monotonic};

/// A socket that is bound to an address, and for how long it was quiet.
#[derive(Drop)]
pub struct Listening {
    socket: TimedSocket,
    quiets: Quiets,
}

/// Binds the address in a link's name, `ADDRESS:PORT/QUIETS`, or takes the socket of one `fd:N/QUIETS`, which the program
/// was started with as the descriptor `N`. A name of another form is refused, and so is a socket that isn't of UDP or isn't
/// bound.
pub fn bind<R: Net>(rt: &R, name: &str) -> Result<Listening, Cause> {
    let Some((address, quiets)) = name.rsplit_once('/') else {
        return Err(Cause::Form("a link is ADDRESS:PORT/QUIETS or fd:N/QUIETS, and there is no /"));
    };
    let Ok(limit) = read_decimal(quiets.as_bytes()) else {
        return Err(Cause::Form(
            "a link is ADDRESS:PORT/QUIETS or fd:N/QUIETS, and QUIETS is no decimal",
        ));
    };
    let socket = match descriptor_in(address) {
        Some(number) => inherited_bound(number)?,
        None => bound_with_buffer(rt, address)?,
    };
    Ok(Listening {
        socket: TimedSocket::new(socket)?,
        quiets: Quiets::new(limit),
    })
}

// A socket that is bound to the address, with a buffer as large as the system gives.
fn bound_with_buffer<R: Net>(rt: &R, address: &str) -> io::Result<UdpSocket> {
    let socket = bound(rt, address)?;
    ask_for_buffer(&socket);
    Ok(socket)
}

/// A UDP socket that brings datagrams until it was quiet for as many tenths of a second in a row as its name says, or
/// until the links of its run end. What comes isn't told.
#[derive(Drop)]
pub struct UdpLink<'a, R> {
    /// The name that it was opened under.
    pub name: Text,
    /// How often its calls failed.
    pub faults: u64,
    listening: Listening,
    ending: &'a Ending,
    reporter: Reporter<'a, R>,
    number: u64,
    limit: Limit,
}

impl<'a, R> UdpLink<'a, R> {
    /// The link of this number, counted from 0, which ends where the ending has begun.
    pub fn new(
        name: Text,
        listening: Listening,
        ending: &'a Ending,
        reporter: Reporter<'a, R>,
        number: u64,
    ) -> UdpLink<'a, R>
        ensures name { result.name ≡ name }
        ensures faults { result.faults ≡ 0 }
    {
        UdpLink {
            name,
            faults: 0,
            listening,
            ending,
            reporter,
            number,
            limit: Limit::new(),
        }
    }
}

impl<'a, R: Eprint> UdpLink<'a, R> {
    // What a call answers that brought no datagram, by its error. A receive that was interrupted, as of a program that
    // was stopped and goes on, is quiet too, and isn't counted towards the end. An error that passes by itself is a
    // quiet of as long as the receive rested.
    fn miss(&mut self, missed: Missed) -> Got
        ensures cause { HasCause self.old.faults self.new.faults (result ≡ Got.Failed) }
        ensures name { self.new.name ≡ self.old.name }
        ensures step { (into : List ℕ) → Gets None None into result }
        ensures interrupted { error_kind missed.error ≡ ErrorKind.Interrupted → (result ≡ Got.Quiet) × (self.new.listening.quiets ≡ self.old.listening.quiets) }
        ensures quiet { result ≡ Got.Quiet → (error_kind missed.error ≡ ErrorKind.Interrupted) ⊎ (error_kind missed.error ≡ ErrorKind.WouldBlock) ⊎ (error_kind missed.error ≡ ErrorKind.TimedOut) ⊎ (missed.passes ≡ true) }
        ensures counted { (error_kind missed.error ≡ ErrorKind.WouldBlock) ⊎ (error_kind missed.error ≡ ErrorKind.TimedOut) → self.new.listening.quiets ≡ record { limit = self.old.listening.quiets.limit; waited = min (self.old.listening.quiets.waited + missed.waited) (2 ^ 64 - 1) } }
    {
        match missed.error.kind() {
            ErrorKind::Interrupted => Got::Quiet,
            ErrorKind::WouldBlock | ErrorKind::TimedOut => self.count(missed.waited),
            _ if missed.passes => {
                let waited = missed.waited;
                self.pass(&Cause::System(missed.error));
                self.count(waited)
            }
            _ => {
                self.faults = self.faults.saturating_add(1);
                self.tell(&Cause::System(missed.error));
                Got::Failed
            }
        }
    }

    // Counts a quiet of so many microseconds towards the end.
    fn count(&mut self, waited: u64) -> Got
        ensures faults { self.new.faults ≡ self.old.faults }
        ensures name { self.new.name ≡ self.old.name }
        ensures answer { (result ≡ Got.Quiet) ⊎ (result ≡ Got.End) }
        ensures counted { self.new.listening.quiets ≡ record { limit = self.old.listening.quiets.limit; waited = min (self.old.listening.quiets.waited + waited) (2 ^ 64 - 1) } }
    {
        self.listening.quiets.add(waited);
        if self.listening.quiets.are_over() {
            Got::End
        } else {
            Got::Quiet
        }
    }

    // Tells that the link failed.
    fn tell(&self, cause: &Cause) {
        let name = str::from_utf8(self.name.bytes()).unwrap_or("");
        self.reporter.failed("link", self.number, name, cause);
    }

    // Tells of an error that passes by itself, where that is to be told again.
    fn pass(&mut self, cause: &Cause)
        ensures faults { self.new.faults ≡ self.old.faults }
        ensures name { self.new.name ≡ self.old.name }
        ensures listening { self.new.listening ≡ self.old.listening }
    {
        let Some(left_out) = self.limit.admit(monotonic()) else {
            return;
        };
        self.tell_of_pass(cause, left_out);
    }

    // Tells that it went on behind an error, and how many such lines were left out.
    fn tell_of_pass(&self, cause: &Cause, left_out: u64) {
        let name = str::from_utf8(self.name.bytes()).unwrap_or("");
        self.reporter
            .passed("link", self.number, name, cause, left_out);
    }

    // Whether the link has ended.
    fn has_ended(&self) -> bool
    where
        R: Files,
    {
        self.listening.quiets.are_over() || self.ending.has_begun(self.reporter.system())
    }
}

impl<'a, R: Eprint + Files> Link for UdpLink<'a, R> {
    ghost left = { λ _. None };

    ghost faults = { λ it. it.faults };

    ghost name = { λ it. it.name };

    /// Asks the system once, unless the link has ended, and a second time only where the link was told a wait and no
    /// datagram is there. Of a longer datagram the bytes behind the first 2,048 are lost.
    fn next(&mut self, into: &mut [u8; MOST_DATAGRAM]) -> Got {
        if self.has_ended() {
            return Got::End;
        }
        match self.listening.socket.receive(into) {
            Ok(length) => {
                self.listening.quiets.clear();
                Got::Datagram(length)
            }
            Err(missed) => self.miss(missed),
        }
    }

    /// The calls of `next` wait so long from now on, until another wait is told: at least a microsecond, and at most 100
    /// milliseconds.
    fn wait_at_most(&mut self, microseconds: u64) {
        self.listening.socket.wait_at_most(microseconds);
    }
}
