//! A sink of the running system.

ghost use Rattle.std.specs.Prelude.{◌≡◌, ◌≤◌, ◌<◌, None, IfOk, length};

use crate::target::{Step, Target};
use std::net::Net;
use std::rt::Files;
use std::str;
use std::sync::Wait;
use std::time::{Clock, Duration};
use tesla_base::Text;
use tesla_desk::{CONSOLE, Sink, WriteStep};
use tesla_reports::{Cause, Events, Reporter, monotonic};

/// How many milliseconds lie between two tries to write what couldn't be written.
const PAUSE: u64 = 1_000;
/// The same where nobody listens at a socket.
const SOCKET_PAUSE: u64 = 100;

/// A sink that is written from front to end. What is in it isn't told.
pub struct LiveSink<'a, R: Files> {
    /// The name that it was opened under.
    pub name: Text,
    /// How often its writes failed.
    pub faults: u64,
    target: Target<'a, R>,
    reporter: Reporter<'a, R>,
    // Where it is counted that it failed, if it is one of records, and its number among these.
    events: Option<&'a Events>,
    number: u64,
    // Whether it is counted as one that fails, and is tried again until it is written.
    is_waiting: bool,
}

impl<'a, R: Files> LiveSink<'a, R> {
    /// A sink under this name, which has not failed yet.
    pub fn new(name: Text, target: Target<'a, R>, reporter: Reporter<'a, R>) -> LiveSink<'a, R>
        ensures name { result.name ≡ name }
        ensures faults { result.faults ≡ 0 }
    {
        LiveSink {
            name,
            faults: 0,
            target,
            reporter,
            events: None,
            number: 0,
            is_waiting: false,
        }
    }

    /// The same sink, as the one of records of this number, counted from 0, whose failures are counted here, and which is tried
    /// again where that is told.
    pub fn of_records(self, events: &'a Events, number: u64) -> LiveSink<'a, R>
        ensures name { result.name ≡ self.entry.name }
        ensures faults { result.faults ≡ self.entry.faults }
    {
        let LiveSink {
            name,
            faults,
            target,
            reporter,
            events: _,
            number: _,
            is_waiting,
        } = self;
        LiveSink {
            name,
            faults,
            target,
            reporter,
            events: Some(events),
            number,
            is_waiting,
        }
    }

    /// How often its writes failed. What it was written to is let go.
    pub fn into_faults(self) -> u64
        ensures { result ≡ self.entry.faults }
    {
        let LiveSink {
            name: _,
            faults,
            target,
            reporter: _,
            events: _,
            number: _,
            is_waiting: _,
        } = self;
        match target {
            Target::File(_) | Target::Console(_) => {}
            Target::Pipe(_) | Target::Given(_) => {}
            Target::Datagrams(_) | Target::Stream(_) => {}
        }
        faults
    }
}

impl<'a, R: Files + Eprint> LiveSink<'a, R> {
    // The name that it is told under.
    fn shown(&self) -> &str {
        let name = str::from_utf8(self.name.bytes()).unwrap_or("");
        if name == CONSOLE {
            "standard output"
        } else {
            name
        }
    }

    // Tells that a write failed, and counts the sink, the first time.
    fn tell(&mut self, is_first: bool, cause: &Cause)
        ensures name { self.new.name ≡ self.old.name }
        ensures faults { self.new.faults ≡ self.old.faults }
    {
        if !is_first {
            return;
        }
        self.reporter.cannot("write", self.shown(), cause);
        if let Some(events) = self.events {
            if !self.is_waiting {
                events.count_failed_sink();
            }
            self.is_waiting = false;
            events.count_lost_sink();
        }
    }

    // Tells that it fails from now on and is tried again, and counts it, where that wasn't told before.
    fn tell_waiting(&mut self, cause: &Cause)
        ensures name { self.new.name ≡ self.old.name }
        ensures faults { self.new.faults ≡ self.old.faults }
    {
        if self.is_waiting {
            return;
        }
        let how = match &self.target {
            Target::Stream(_) => "tried again until somebody listens",
            _ => "tried again each second",
        };
        self.reporter.cannot_write_yet(self.shown(), cause, how);
        if let Some(events) = self.events {
            events.count_failed_sink();
        }
        self.is_waiting = true;
    }

    // Tells that all of a piece was written behind a failure, and takes the sink from those that are counted.
    fn tell_written(&mut self)
        ensures name { self.new.name ≡ self.old.name }
        ensures faults { self.new.faults ≡ self.old.faults }
    {
        self.reporter.written_again(self.shown());
        if let Some(events) = self.events {
            events.count_written_sink();
        }
        self.is_waiting = false;
    }
}

impl<'a, R: Files + Eprint> LiveSink<'a, R> {
    // Tells that the system refused to send a datagram, which is lost as on the way: once a second at most.
    fn tell_lost(&mut self, cause: &Cause)
        ensures name { self.new.name ≡ self.old.name }
        ensures faults { self.new.faults ≡ self.old.faults }
    {
        let Target::Datagrams(datagrams) = &mut self.target else {
            return;
        };
        if let Some(left_out) = datagrams.limit.admit(monotonic()) {
            self.reporter
                .passed("sink", self.number, self.shown(), cause, left_out);
        }
    }
}

impl<'a, R: Files> LiveSink<'a, R> {
    // Whether a failure ends the sink. One of records is tried again where the run says so, and a stream always: both end where the
    // run is asked to end. What is no stream also ends where nobody reads it any more: who came next would begin to read within
    // a record.
    fn is_final(&self, cause: &Cause) -> bool {
        let Some(events) = self.events else {
            return true;
        };
        let is_waited_for = match &self.target {
            Target::Stream(_) => true,
            _ => events.is_tried_again() && !cause.is_of_reader(),
        };
        !is_waited_for || events.ending.has_begun(self.reporter.system())
    }

    // How many milliseconds lie between two tries.
    fn pause(&self) -> u64 {
        match &self.target {
            Target::Stream(_) => SOCKET_PAUSE,
            _ => PAUSE,
        }
    }

    // Keeps a pipe open no longer where the run is asked to end: where it has no room and no reader, the next write fails.
    fn look_for_end(&mut self)
        ensures name { self.new.name ≡ self.old.name }
        ensures faults { self.new.faults ≡ self.old.faults }
    {
        let (Target::Pipe(pipe), Some(events)) = (&mut self.target, self.events) else {
            return;
        };
        if events.ending.has_begun(self.reporter.system()) {
            pipe.let_go();
        }
    }
}

impl<'a, R: Files + Print + Eprint + Net + Clock + Wait> LiveSink<'a, R> {
    // Asks the system until it takes some of the piece, a while behind each failure that is waited for.
    fn ask_on(&mut self, piece: &[u8]) -> Result<usize, Cause>
        ensures taken { IfOk result (λ count. (count ≤ length piece.now) × (0 < length piece.now → 0 < count)) }
        ensures name { self.new.name ≡ self.old.name }
        ensures faults { self.new.faults ≡ self.old.faults }
    {
        let rt = self.reporter.system();
        for _ in rt.forever() {
            match self.target.write(rt, piece) {
                Step::Took(count) => return Ok(count),
                Step::Lost(cause) => {
                    self.tell_lost(&cause);
                    return Ok(piece.len());
                }
                Step::Waited => self.look_for_end(),
                Step::Failed(cause) if self.is_final(&cause) => return Err(cause),
                Step::Failed(cause) => {
                    self.tell_waiting(&cause);
                    rt.sleep(Duration::from_millis(self.pause()));
                }
            }
        }
        unreachable!()
    }
}

impl<'a, R: Files + Print + Eprint + Net + Clock + Wait> Sink for LiveSink<'a, R> {
    ghost written = { λ _. None };

    ghost faults = { λ it. it.faults };

    ghost name = { λ it. it.name };

    /// Asks the system once, or, where it is tried again, until some of the piece is taken or that is given up.
    fn write(&mut self, piece: &[u8]) -> WriteStep {
        match self.ask_on(piece) {
            Ok(count) => {
                if self.is_waiting && count == piece.len() {
                    self.tell_written();
                }
                WriteStep::Took(count)
            }
            Err(cause) => {
                let is_first = self.faults == 0;
                self.faults = self.faults.saturating_add(1);
                self.tell(is_first, &cause);
                WriteStep::Failed
            }
        }
    }
}
