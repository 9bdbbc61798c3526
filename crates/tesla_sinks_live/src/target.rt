//! Where the bytes of a sink go.

ghost use Rattle.std.specs.Prelude.{◌≡◌, ◌≤◌, ◌<◌, ℕ, IfOk, length};

use crate::datagrams::{Datagrams, Sent};
use crate::descriptor::Descriptor;
use crate::pipe::KeptPipe;
use crate::stream::Stream;
use std::io::{self, ErrorKind, Write};
use std::net::Net;
use std::rt::Files;
use tesla_reports::Cause;

/// Where the bytes go.
pub enum Target<'a, R: Files> {
    /// A file, a device, or a named pipe that ends with its reader.
    File(R::File),
    Console(&'a R),
    /// A named pipe that readers leave and come to.
    Pipe(KeptPipe),
    Given(Descriptor),
    Datagrams(Datagrams),
    Stream(Stream),
}

/// What the system answers to one call.
pub(crate) enum Step {
    /// It took this many bytes of the front of the piece.
    Took(usize),
    /// A datagram is lost as on the way.
    Lost(Cause),
    /// There was no room, and it was waited for some.
    Waited,
    Failed(Cause),
}

impl<'a, R: Files + Print + Net> Target<'a, R> {
    /// Asks the system once. Sockets take a piece whole.
    pub(crate) fn write(&mut self, rt: &R, piece: &[u8]) -> Step
        ensures { (count : ℕ) → result ≡ Step.Took count → (count ≤ length piece.now) × (0 < length piece.now → 0 < count) }
    {
        match self {
            Target::File(file) => step_of(piece, file.write(piece)),
            Target::Console(console) => step_of(piece, console.write_some(piece)),
            Target::Pipe(pipe) => waiting_step_of(piece, pipe.write(piece)),
            Target::Given(descriptor) => waiting_step_of(piece, descriptor.write(piece)),
            Target::Datagrams(datagrams) => match datagrams.send(piece) {
                Ok(Sent::Whole) => Step::Took(piece.len()),
                Ok(Sent::Lost(cause)) => Step::Lost(cause),
                Err(cause) => Step::Failed(cause),
            },
            Target::Stream(stream) => match stream.write(rt, piece) {
                Ok(()) => Step::Took(piece.len()),
                Err(cause) => Step::Failed(cause),
            },
        }
    }
}

// What an answer of the system means. Any error is a failure, an interrupted call too.
fn step_of(piece: &[u8], taken: io::Result<usize>) -> Step
    requires { IfOk taken (λ count. count ≤ length piece.now) }
    ensures { (count : ℕ) → result ≡ Step.Took count → (count ≤ length piece.now) × (0 < length piece.now → 0 < count) }
{
    match taken {
        Ok(count) if 0 < count || piece.is_empty() => Step::Took(count),
        Ok(_) => Step::Failed(Cause::Form("the system took no byte")),
        Err(error) => Step::Failed(Cause::System(error)),
    }
}

// The same where a write that found no room has waited for some.
fn waiting_step_of(piece: &[u8], taken: io::Result<usize>) -> Step
    requires { IfOk taken (λ count. count ≤ length piece.now) }
    ensures { (count : ℕ) → result ≡ Step.Took count → (count ≤ length piece.now) × (0 < length piece.now → 0 < count) }
{
    match taken {
        Err(error) if error.kind() == ErrorKind::WouldBlock => Step::Waited,
        _ => step_of(piece, taken),
    }
}
