//! An environment that tells nothing and keeps nothing, on which no call from outside fails. Its links and captures
//! make what they bring by number, so a run may be as long as is wanted.

ghost use Rattle.std.specs.Prelude.{◌≡◌, ◌≤◌, IfSome};

use std::alloc::Global;
use std::sync::atomic::AtomicU64;
use std::sync::atomic::Ordering::SeqCst;
use std::test::Fail;
use std::thread::yield_now;
use tesla_base::Text;
use tesla_desk::{
    CONSOLE, Clock, Environment, Gate, Got, Link, NoIncidents, Observed, OpenRefusal, Post,
    PostStep, ReadStep, Sink, SinkOutput, Source, WriteStep,
};
use tesla_test_desk::{SEEDS, SETUP, bytes_of};

/// What the links, the captures and the clocks of such an environment bring, and what its workers have done.
#[derive(Drop)]
pub struct Plan {
    // The frames that the first link brings before all else.
    hi: Vec<u8>,
    yo: Vec<u8>,
    /// How many datagrams each link makes, of 8 bytes each, and each capture, of none.
    pub datagrams: u64,
    /// How often a link looks behind them whether a piece was written to an output. It ends where one was, and at once
    /// where this is 0.
    pub looks: u64,
    /// The first reading of each clock, and how much later each further one is.
    pub first: u64,
    pub step: u64,
    /// How many pieces were written to outputs.
    pub written: AtomicU64,
    /// How many datagrams were sent.
    pub sent: AtomicU64,
    /// How many links looked in vain.
    pub missed: AtomicU64,
}

impl Plan {
    /// A plan with clocks that read 1,150,000 and then 200,000 more each time, where links make so many datagrams and
    /// look so often. The first link brings 'hi' of interval 1 before, and 'yo' of interval 3 with the key that proves
    /// it.
    pub fn new(alloc: Global, datagrams: u64, looks: u64) -> Result<Plan, Fail> {
        Ok(Plan {
            hi: bytes_of(alloc, "DATA_1_0_HI")?,
            yo: bytes_of(alloc, "DATA_3_0_YO")?,
            datagrams,
            looks,
            first: 1_150_000,
            step: 200_000,
            written: AtomicU64::new(0),
            sent: AtomicU64::new(0),
            missed: AtomicU64::new(0),
        })
    }
}

/// The head of a capture.
const HEAD: &[u8] = b"TCAP\x01";

/// The record of an arrival of no byte, at reading 1.
const RECORD: &[u8] = b"\x01\0\0\0\0\0\0\0\x01\0\0";

/// What a source brings before its records, or one of these.
#[derive(Clone, Copy)]
enum Part {
    Setup,
    Seeds,
    Head,
    Record,
}

impl Part {
    // Its bytes.
    fn bytes(self) -> &'static [u8] {
        match self {
            Part::Setup => SETUP.as_bytes(),
            Part::Seeds => SEEDS.as_bytes(),
            Part::Head => HEAD,
            Part::Record => RECORD,
        }
    }
}

/// A text, and so many records behind it.
#[derive(Drop)]
pub struct Records {
    name: Text,
    part: Part,
    // How many bytes of the part were read.
    place: usize,
    records: u64,
}

impl Source for Records {
    ghost use Rattle.std.specs.Prelude.{None};

    ghost left = { λ _. None };

    ghost faults = { λ _. 0 };

    ghost name = { λ it. it.name };

    fn read(&mut self, into: &mut [u8]) -> ReadStep {
        if self.part.bytes().len() <= self.place && 0 < self.records {
            self.records -= 1;
            self.part = Part::Record;
            self.place = 0;
        }
        let rest = self.part.bytes().get(self.place..).unwrap_or(&[]);
        let count = into.len().min(rest.len());
        if count == 0 {
            return ReadStep::End;
        }
        into[..count].copy_from_slice(&rest[..count]);
        self.place = self.place.saturating_add(count);
        ReadStep::Got(count)
    }
}

/// How many bytes of the console are kept.
const ROOM: usize = 512;

// Keeps what there is room for of a piece behind so many bytes, and gives how many bytes are kept then.
fn kept_in(text: &mut [u8; ROOM], length: usize, piece: &[u8]) -> usize {
    let mut kept = length;
    for byte in piece {
        if let Some(place) = text.get_mut(kept) {
            *place = *byte;
            kept = kept.saturating_add(1);
        }
    }
    kept
}

/// Takes every piece whole, and counts the pieces. It keeps the first bytes.
#[derive(Drop)]
pub struct Counted<'a> {
    name: Text,
    plan: &'a Plan,
    text: [u8; ROOM],
    length: usize,
}

impl Sink for Counted<'_> {
    ghost use Rattle.std.specs.Prelude.{None};

    ghost written = { λ _. None };

    ghost faults = { λ _. 0 };

    ghost name = { λ it. it.name };

    #[tactic(auto, using(crate::proofs::Whole::whole_never_stalls))]
    fn write(&mut self, piece: &[u8]) -> WriteStep {
        self.plan.written.fetch_add(1, SeqCst);
        self.length = kept_in(&mut self.text, self.length, piece);
        WriteStep::Took(piece.len())
    }
}

/// Brings what a plan has for a link.
#[derive(Drop)]
pub struct Numbered<'a> {
    name: Text,
    plan: &'a Plan,
    frames: u8,
    left: u64,
    looks: u64,
}

impl Numbered<'_> {
    // The next datagram.
    fn datagram(&mut self, into: &mut [u8; 2048]) -> Option<usize>
        ensures few { IfSome result (λ count. count ≤ 2048) }
        ensures name { self.new.name ≡ self.old.name }
    {
        if 0 < self.frames {
            self.frames -= 1;
            let frame = if self.frames == 0 {
                &self.plan.yo
            } else {
                &self.plan.hi
            };
            let count = frame.len().min(2048);
            into[..count].copy_from_slice(&frame.as_slice()[..count]);
            return Some(count);
        }
        if 0 < self.left {
            self.left -= 1;
            into[..8].copy_from_slice(&self.left.to_be_bytes());
            return Some(8);
        }
        None
    }

    // Whether it has to look again whether a piece was written.
    fn waits(&mut self) -> bool
        ensures name { self.new.name ≡ self.old.name }
    {
        if self.looks == 0 || 0 < self.plan.written.load(SeqCst) {
            return false;
        }
        self.looks -= 1;
        if self.looks == 0 {
            self.plan.missed.fetch_add(1, SeqCst);
        }
        0 < self.looks
    }
}

impl Link for Numbered<'_> {
    ghost use Rattle.std.specs.Prelude.{None};

    ghost left = { λ _. None };

    ghost faults = { λ _. 0 };

    ghost name = { λ it. it.name };

    fn next(&mut self, into: &mut [u8; 2048]) -> Got {
        if let Some(count) = self.datagram(into) {
            return Got::Datagram(count);
        }
        if self.waits() { Got::Quiet } else { Got::End }
    }
}

/// Counts the datagrams.
#[derive(Drop)]
pub struct CountedPost<'a> {
    name: Text,
    plan: &'a Plan,
}

impl Post for CountedPost<'_> {
    ghost use Rattle.std.specs.Prelude.{None};

    ghost sent = { λ _. None };

    ghost faults = { λ _. 0 };

    ghost name = { λ it. it.name };

    fn send(&mut self, _datagram: &[u8]) -> PostStep {
        self.plan.sent.fetch_add(1, SeqCst);
        PostStep::Sent
    }
}

/// Gives the readings of a plan.
#[derive(Drop)]
pub struct Steady {
    reading: u64,
    step: u64,
}

impl Clock for Steady {
    ghost use Rattle.std.specs.Prelude.{None};

    ghost told = { λ _. None };

    fn now(&mut self) -> u64 {
        let reading = self.reading;
        self.reading = reading.saturating_add(self.step);
        reading
    }

    fn now_for(&mut self, _datagram: &[u8]) -> u64 {
        self.now()
    }
}

/// Gives the processor away where nothing is to be done.
#[derive(Drop)]
pub struct YieldingGate;

impl Gate for YieldingGate {
    fn before(&mut self) {}

    fn after(&mut self) {}

    fn rest(&mut self) {
        yield_now();
    }
}

/// The environment of a plan.
#[derive(Drop)]
pub struct UntoldDesk<'a> {
    alloc: Global,
    plan: &'a Plan,
    links: u64,
    console: [u8; ROOM],
    length: usize,
}

impl<'a> UntoldDesk<'a> {
    /// The environment of this plan.
    pub fn new(alloc: Global, plan: &'a Plan) -> UntoldDesk<'a> {
        UntoldDesk {
            alloc,
            plan,
            links: 0,
            console: [0; ROOM],
            length: 0,
        }
    }

    /// What the console has.
    pub fn console(&self) -> &str {
        std::str::from_utf8(&self.console[..self.length.min(ROOM)]).unwrap_or("")
    }
}

impl<'a> Environment for UntoldDesk<'a> {
    ghost use Rattle.std.specs.Prelude.{None};
    ghost use Rattle.tesla_desk.specs.Faults.{no_faults};
    ghost use Rattle.tesla_desk.specs.Live.{untold};
    ghost use Rattle.tesla_desk.specs.Outside.{Untold};

    type In = Records;

    type Out = Counted<'a>;

    type Pieces = SinkOutput<Counted<'a>>;

    type Wire = Numbered<'a>;

    type Port = CountedPost<'a>;

    type Time = Steady;

    type Pause = YieldingGate;

    ghost told = { λ _. record { page = λ _. Untold; left = λ _. None; faults = no_faults; openings = None; live = untold } };

    fn open_source(&mut self, name: &str) -> Result<Records, OpenRefusal> {
        let (part, records) = match name {
            "setup" => (Part::Setup, 0),
            "secret" => (Part::Seeds, 0),
            _ => (Part::Head, self.plan.datagrams),
        };
        let name = Text::new(self.alloc, name.as_bytes())?;
        Ok(Records {
            name,
            part,
            place: 0,
            records,
        })
    }

    fn open_console(&mut self) -> Result<Counted<'a>, OpenRefusal> {
        Ok(Counted {
            name: Text::new(self.alloc, CONSOLE.as_bytes())?,
            plan: self.plan,
            text: [0; ROOM],
            length: 0,
        })
    }

    fn open_output(&mut self, name: &str) -> Result<SinkOutput<Counted<'a>>, OpenRefusal> {
        let sink = Counted {
            name: Text::new(self.alloc, name.as_bytes())?,
            plan: self.plan,
            text: [0; ROOM],
            length: 0,
        };
        Ok(SinkOutput { sink })
    }

    fn close_source(&mut self, it: Records) {
        drop(it);
    }

    fn close_sink(&mut self, it: Counted<'a>) {
        self.console = it.text;
        self.length = it.length;
        drop(it);
    }

    fn close_output(&mut self, it: SinkOutput<Counted<'a>>) {
        let SinkOutput { sink } = it;
        drop(sink);
    }

    fn open_link(&mut self, name: &str) -> Result<Numbered<'a>, OpenRefusal> {
        let name = Text::new(self.alloc, name.as_bytes())?;
        let frames = if self.links == 0 { 2 } else { 0 };
        self.links = self.links.saturating_add(1);
        Ok(Numbered {
            name,
            plan: self.plan,
            frames,
            left: self.plan.datagrams,
            looks: self.plan.looks,
        })
    }

    fn close_link(&mut self, it: Numbered<'a>) {
        drop(it);
    }

    fn open_post(&mut self, name: &str) -> Result<CountedPost<'a>, OpenRefusal> {
        Ok(CountedPost {
            name: Text::new(self.alloc, name.as_bytes())?,
            plan: self.plan,
        })
    }

    fn close_post(&mut self, it: CountedPost<'a>) {
        drop(it);
    }

    fn clock(&mut self) -> Steady {
        Steady {
            reading: self.plan.first,
            step: self.plan.step,
        }
    }

    fn gate(&mut self) -> YieldingGate {
        YieldingGate
    }
}

impl<'a> Observed for UntoldDesk<'a> {
    type Events = NoIncidents;

    fn incidents(&mut self) -> NoIncidents {
        NoIncidents
    }
}
