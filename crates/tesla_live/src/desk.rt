//! The desk of the running system.

ghost use Rattle.std.specs.Prelude.{◌≡◌, None, Err, IfOk, IfSome};
ghost use Rattle.tesla_desk.specs.Faults.{HasCause, no_faults, raised_where_failed};
ghost use Rattle.tesla_desk.specs.Live.{untold};
ghost use Rattle.tesla_desk.specs.Outside.{Untold};

use crate::clock::anchor_of;
use crate::feeding::name_of_feed;
use crate::gate::{Gates, LiveGate};
use crate::stack::overwrite_stack;
use crate::{Anchor, Command, MachineClock};
use std::io::{Error, ErrorKind};
use std::net::Net;
use std::rt::Files;
use std::sync::Wait;
use std::time::Clock;
use tesla_base::Text;
use tesla_desk::{CONSOLE, Desk, Environment, Observed, OpenRefusal, SinkOutput};
use tesla_files_live::{FRONT, FileSource, Making, Opened, OpenedFiles};
use tesla_net_live::{HeldName, Listening, Sending, UdpLink, UdpPost, bind, direct, hold};
use tesla_reports::{Cause, LiveIncidents, Reporter};
use tesla_sinks_live::{
    LiveSink, SinkName, Target, aim, given, is_pipe, keep, sink_name, stream_to,
};

/// How many fronts of sources are kept at most: those of the setups of a feed, which has 16 at most.
const MOST_FRONTS: usize = 16;

/// The files of the system, standard output under the name of the console, UDP sockets as links and posts, sockets and descriptors as
/// sinks of records, clocks over the system's, and gates that wake one another. It tells no bytes, no letters, no mail and no readings.
///
/// A run begins where its first link, post or clock is opened. Both clocks of the system are read then, and that is where
/// all clocks of the run go on from.
///
/// A regular file that it opened before, or that is standard output, is refused as a sink, whatever the
/// name, and is neither cut nor written.
///
/// What isn't opened, and what fails, it tells on standard error, with the name and the system's words.
#[derive(Drop)]
pub struct LiveDesk<'a, R> {
    rt: &'a R,
    gates: &'a Gates,
    command: Command,
    // Under which name it tells.
    label: &'static str,
    // When the run began: none before its first live end is opened.
    anchor: Option<Anchor>,
    opened: OpenedFiles,
    // How many of each were opened or refused.
    numbers: Numbers,
    // The fronts of the sources without seeds that were closed, how many these are, and what a feed holds.
    fronts: [[u8; FRONT]; MOST_FRONTS],
    known: usize,
    held: Vec<HeldName>,
    reads: u64,
    writes: u64,
    openings: u64,
}

/// How many openings were asked for, of each kind.
#[derive(Clone, Copy)]
struct Numbers {
    sources: u64,
    outputs: u64,
    links: u64,
    posts: u64,
}

impl<'a, R: Files + Net + Clock + Eprint + Print + AllocGlobal + Wait + Sync> LiveDesk<'a, R>
where
    R::File: Send,
{
    /// A desk with no faults for a command, whose gates share these.
    pub fn new(rt: &'a R, gates: &'a Gates, command: Command) -> LiveDesk<'a, R>
        ensures { (⟦<LiveDesk<'a, R> as Environment>⟧.told result).faults ≡ no_faults }
    {
        LiveDesk::labelled(rt, gates, command, command.name())
    }

    /// The same, which tells on standard error under this name.
    pub fn labelled(
        rt: &'a R,
        gates: &'a Gates,
        command: Command,
        label: &'static str,
    ) -> LiveDesk<'a, R>
        ensures { (⟦<LiveDesk<'a, R> as Environment>⟧.told result).faults ≡ no_faults }
    {
        LiveDesk {
            rt,
            gates,
            command,
            label,
            anchor: None,
            opened: OpenedFiles::new(rt.alloc()),
            numbers: Numbers {
                sources: 0,
                outputs: 0,
                links: 0,
                posts: 0,
            },
            fronts: [[0; FRONT]; MOST_FRONTS],
            known: 0,
            held: Vec::new(rt.alloc()),
            reads: 0,
            writes: 0,
            openings: 0,
        }
    }
}

impl<'a, R: Files + Net + Eprint> LiveDesk<'a, R> {
    // Where the parts of the run tell what happened.
    fn reporter(&self) -> Reporter<'a, R> {
        Reporter::new(self.rt, self.label)
    }

    // Tells that a file isn't opened, where that isn't for want of memory.
    fn tell_unopened(&self, what: &str, name: &str, cause: &Cause) {
        if !cause.is_of_memory() {
            self.reporter().cannot(what, name, cause);
        }
    }

    // The same of a link or a post of this number.
    fn tell_unbound(&self, what: &str, number: u64, name: &str, cause: &Cause) {
        if !cause.is_of_memory() {
            self.reporter().cannot_number(what, number, name, cause);
        }
    }

    // Tells that others than its owner may read a file that is to be secret.
    fn tell_readable(&self, is_secret: bool, name: &str, mode: u32) {
        if is_secret && mode & 0o077 != 0 {
            self.reporter().readable(name, mode);
        }
    }

    // Overwrites what is left on the stack of a secret that was read before.
    fn forget_secret(&self) {
        if self.command.reads_seeds() {
            overwrite_stack(self.rt);
        }
    }

    // Refuses to begin where something stands already at the path that ends the links of the run.
    fn look_for_stop(&self) -> Result<(), Cause> {
        match self.gates.events.ending.stands(self.rt) {
            Some(_) => Err(Cause::Form("something stands at the path of TESLA_STOP")),
            None => Ok(()),
        }
    }

    // Keeps the front of a source that was closed, as long as there is room for it.
    fn keep_front(&mut self, front: [u8; FRONT])
        ensures { (self.new.reads ≡ self.old.reads) × (self.new.writes ≡ self.old.writes) × (self.new.openings ≡ self.old.openings) }
    {
        if let Some(place) = self.fronts.get_mut(self.known) {
            *place = front;
            self.known += 1;
        }
    }

    // The socket of a post. A run that has opened a link has begun with that, and ends by it.
    fn sending(&self, name: &str) -> Result<Sending, Cause> {
        if self.numbers.links == 0 {
            self.look_for_stop()?;
        }
        direct(self.rt, name)
    }
}

impl<'a, R: Files + Net + Eprint + AllocGlobal> LiveDesk<'a, R> {
    // What a feed holds, so that no other one of one of its streams runs on this machine.
    fn hold_streams(&self) -> Result<Vec<HeldName>, Cause> {
        let mut held = Vec::new(self.rt.alloc());
        if self.command != Command::Feed {
            return Ok(held);
        }
        for front in self.fronts.iter().take(self.known) {
            let (name, length) = name_of_feed(front);
            let name = hold(self.rt, &name[..length])?;
            if held.push(name).is_err() {
                return Err(Cause::System(Error::from(ErrorKind::OutOfMemory)));
            }
        }
        Ok(held)
    }

    // The socket of a link, and what a feed holds.
    fn listening(&self, name: &str) -> Result<(Vec<HeldName>, Listening), Cause> {
        self.look_for_stop()?;
        let held = self.hold_streams()?;
        Ok((held, bind(self.rt, name)?))
    }
}

impl<'a, R: Files + Net + AllocGlobal> LiveDesk<'a, R> {
    // Where a sink of records writes to that is no file, or is a pipe that is kept open. `None` of all others.
    fn target_of(&mut self, name: &str) -> Result<Option<Target<'a, R>>, Cause>
        ensures { (self.new.reads ≡ self.old.reads) × (self.new.writes ≡ self.old.writes) × (self.new.openings ≡ self.old.openings) }
    {
        let target = match sink_name(name) {
            SinkName::Datagrams(address) => Target::Datagrams(aim(self.rt, address)?),
            SinkName::Stream(path) => Target::Stream(stream_to(path)?),
            SinkName::Descriptor(number) => {
                let descriptor = given(self.rt, number)?;
                self.opened.admit(self.rt, number)?;
                Target::Given(descriptor)
            }
            SinkName::Path(path) if self.keeps(path) => Target::Pipe(keep(path)?),
            SinkName::Path(_) => return Ok(None),
        };
        Ok(Some(target))
    }

    // Whether a pipe of this name is kept open, so that its sink outlives its readers.
    fn keeps(&self, path: &str) -> bool {
        self.gates.events.is_tried_again() && is_pipe(self.rt, path)
    }
}

impl<'a, R: Files + Net + Eprint + AllocGlobal> LiveDesk<'a, R> {
    // A sink of records that is no file, or is a pipe that is kept open. `None` of all others.
    fn open_sink_of_records(&mut self, name: &str) -> Result<Option<LiveSink<'a, R>>, OpenRefusal>
        ensures fresh { IfOk result (λ found. IfSome found (λ it. it.faults ≡ 0)) }
        ensures named { IfOk result (λ found. IfSome found (λ it. it.name ≡ name.now)) }
        ensures openings { HasCause self.old.openings self.new.openings (result ≡ Err OpenRefusal.Failed) }
        ensures same { (self.new.reads ≡ self.old.reads) × (self.new.writes ≡ self.old.writes) }
    {
        let sink_name = Text::new(self.rt.alloc(), name.as_bytes())?;
        match self.target_of(name) {
            Ok(Some(target)) => Ok(Some(LiveSink::new(sink_name, target, self.reporter()))),
            Ok(None) => Ok(None),
            Err(cause) => {
                self.tell_unopened("open to write", name, &cause);
                Err(refusal_of(&mut self.openings, &cause))
            }
        }
    }
}

impl<'a, R: Files + Net + Clock + Eprint + Print + AllocGlobal + Wait + Sync> Environment
    for LiveDesk<'a, R>
where
    R::File: Send,
{
    type In = FileSource<'a, R, R::File>;

    type Out = LiveSink<'a, R>;

    type Pieces = SinkOutput<LiveSink<'a, R>>;

    type Wire = UdpLink<'a, R>;

    type Port = UdpPost<'a, R>;

    type Time = MachineClock<'a, R>;

    type Pause = LiveGate<'a, R>;

    ghost told = { λ desk. record { page = λ _. Untold; left = λ _. None; faults = record { reads = desk.reads; writes = desk.writes; openings = desk.openings }; openings = None; live = untold } };

    fn open_source(&mut self, name: &str) -> Result<FileSource<'a, R, R::File>, OpenRefusal> {
        let source_name = Text::new(self.rt.alloc(), name.as_bytes())?;
        let number = take_number(&mut self.numbers.sources);
        match self.opened.open(self.rt, name) {
            Ok(Opened { file, mode }) => {
                let is_secret = self.command.is_secret(number);
                self.tell_readable(is_secret, name, mode);
                Ok(FileSource::new(source_name, file, self.reporter(), is_secret))
            }
            Err(cause) => {
                self.tell_unopened("open to read", name, &cause);
                Err(refusal_of(&mut self.openings, &cause))
            }
        }
    }

    fn open_console(&mut self) -> Result<LiveSink<'a, R>, OpenRefusal> {
        let sink_name = Text::new(self.rt.alloc(), CONSOLE.as_bytes())?;
        Ok(LiveSink::new(sink_name, Target::Console(self.rt), self.reporter()))
    }

    fn open_output(&mut self, name: &str) -> Result<SinkOutput<LiveSink<'a, R>>, OpenRefusal> {
        let number = take_number(&mut self.numbers.outputs);
        if self.gates.events.sinks() <= number {
            return match self.open_sink(name) {
                Ok(sink) => Ok(SinkOutput { sink }),
                Err(refusal) => Err(refusal),
            };
        }
        match self.open_sink_of_records(name) {
            Ok(Some(sink)) => Ok(SinkOutput {
                sink: sink.of_records(&self.gates.events, number),
            }),
            Ok(None) => match self.open_sink(name) {
                Ok(sink) => Ok(SinkOutput {
                    sink: sink.of_records(&self.gates.events, number),
                }),
                Err(refusal) => Err(refusal),
            },
            Err(refusal) => Err(refusal),
        }
    }

    fn open_link(&mut self, name: &str) -> Result<UdpLink<'a, R>, OpenRefusal> {
        let _began = begin(&mut self.anchor, self.rt, self.command);
        let link_name = Text::new(self.rt.alloc(), name.as_bytes())?;
        let number = take_number(&mut self.numbers.links);
        self.forget_secret();
        match self.listening(name) {
            Ok((held, listening)) => {
                self.held = held;
                let ending = &self.gates.events.ending;
                let reporter = self.reporter();
                Ok(UdpLink::new(link_name, listening, ending, reporter, number))
            }
            Err(cause) => {
                self.tell_unbound("bind link", number, name, &cause);
                Err(refusal_of(&mut self.openings, &cause))
            }
        }
    }

    fn open_post(&mut self, name: &str) -> Result<UdpPost<'a, R>, OpenRefusal> {
        let _began = begin(&mut self.anchor, self.rt, self.command);
        let post_name = Text::new(self.rt.alloc(), name.as_bytes())?;
        let number = take_number(&mut self.numbers.posts);
        match self.sending(name) {
            Ok(sending) => {
                let unsent = &self.gates.events.tallies.unsent;
                let reporter = self.reporter();
                Ok(UdpPost::new(post_name, sending, unsent, reporter, number))
            }
            Err(cause) => {
                self.tell_unbound("send to post", number, name, &cause);
                Err(refusal_of(&mut self.openings, &cause))
            }
        }
    }

    fn close_source(&mut self, it: FileSource<'a, R, R::File>) {
        let front = it.front();
        // (of seeds there are zeros alone)
        if front[0] != 0 {
            self.keep_front(front);
        }
        count_failed(&mut self.reads, it.faults);
    }

    fn close_sink(&mut self, it: LiveSink<'a, R>) {
        count_failed(&mut self.writes, it.into_faults());
    }

    fn close_output(&mut self, it: SinkOutput<LiveSink<'a, R>>) {
        let SinkOutput { sink } = it;
        self.close_sink(sink);
    }

    fn close_link(&mut self, it: UdpLink<'a, R>) {
        count_failed(&mut self.reads, it.faults);
    }

    fn close_post(&mut self, it: UdpPost<'a, R>) {
        it.tell_lost();
        count_failed(&mut self.writes, it.faults);
    }

    fn clock(&mut self) -> MachineClock<'a, R> {
        let anchor = begin(&mut self.anchor, self.rt, self.command);
        MachineClock::new(self.rt, self.command, anchor, self.gates)
    }

    fn gate(&mut self) -> LiveGate<'a, R> {
        LiveGate::new(self.rt, self.gates)
    }
}

impl<'a, R: Files + Net + Clock + Eprint + Print + AllocGlobal + Wait + Sync> Desk
    for LiveDesk<'a, R>
where
    R::File: Send,
{
    fn open_sink(&mut self, name: &str) -> Result<LiveSink<'a, R>, OpenRefusal> {
        if name == CONSOLE {
            return self.open_console();
        }
        let sink_name = Text::new(self.rt.alloc(), name.as_bytes())?;
        self.forget_secret();
        let making = self.command.making();
        match self.opened.create(self.rt, name, making) {
            Ok(Opened { file, mode }) => {
                self.tell_readable(making != Making::Usual, name, mode);
                Ok(LiveSink::new(sink_name, Target::File(file), self.reporter()))
            }
            Err(cause) => {
                self.tell_unopened("open to write", name, &cause);
                Err(refusal_of(&mut self.openings, &cause))
            }
        }
    }
}

impl<'a, R: Files + Net + Clock + Eprint + Print + AllocGlobal + Wait + Sync> Observed
    for LiveDesk<'a, R>
where
    R::File: Send,
{
    type Events = LiveIncidents<'a>;

    fn incidents(&mut self) -> LiveIncidents<'a> {
        LiveIncidents {
            tallies: &self.gates.events.tallies,
        }
    }
}

// The number of the next opening of a kind, counted from 0. It stands still at 2^64 - 1.
fn take_number(count: &mut u64) -> u64
    ensures { result ≡ count.old }
{
    let number = *count;
    *count = count.saturating_add(1);
    number
}

// Counts an object that failed, by how often it did.
fn count_failed(count: &mut u64, faults: u64)
    ensures { count.new ≡ raised_where_failed faults count.old }
{
    if 0 < faults {
        *count = count.saturating_add(1);
    }
}

// What it means for an opening that something can't be had. All but want of memory are faults.
fn refusal_of(openings: &mut u64, cause: &Cause) -> OpenRefusal
    ensures { HasCause openings.old openings.new (result ≡ OpenRefusal.Failed) }
{
    if cause.is_of_memory() {
        return OpenRefusal::NoMemory;
    }
    *openings = openings.saturating_add(1);
    OpenRefusal::Failed
}

// Both clocks at the beginning of the run. They are read where they were not before.
fn begin<R: Clock + Eprint + Wait>(began: &mut Option<Anchor>, rt: &R, command: Command) -> Anchor {
    if let Some(anchor) = *began {
        return anchor;
    }
    let anchor = anchor_of(rt, command);
    *began = Some(anchor);
    anchor
}
