//! A desk in memory on which no call from outside fails.

ghost use Rattle.std.specs.Prelude.{◌≡◌, ◌≢◌, true, false, List, ℕ, [], Some, IfOk, IfSome, OnOk, OnErr, codes};
ghost use Rattle.std.specs.List.{list_all};
ghost use Rattle.std.specs.Option.{option_map};
ghost use Rattle.tesla_desk.specs.Links.{fits};
ghost use Rattle.tesla_desk.specs.Live.{HoldsWire, OpenedLink};
ghost use Rattle.tesla_memory_desk.specs.LiveMemory.{readings_in};
ghost use Rattle.tesla_memory_desk.specs.Memory.{Refuses, bytes_in};
ghost use Rattle.tesla_desk.specs.Outside.{Holds, Opened, OpensLink, OpensPost, OpensSink, OpensSource};
ghost use Rattle.tesla_memory_desk.specs.Sure.{nothing_put, sure_clocks_of, sure_faults_of, sure_left_of, sure_letters_left, sure_link_name_of, sure_live_of, sure_page_under, sure_post_name_of, sure_sent_of, sure_sink_name_of, sure_source_name_of, sure_told_by, sure_written_of, with_pages, with_told_readings, with_wires};

use crate::clock_lists::ClockLists;
use crate::entries::{Entries, Named, newest_under, put_under};
use crate::stored::{AskedOpening, StoredPage};
use crate::stored_letters::{StoredLetters, StoredRemainders};
use crate::sure_parts::{SurePages, SureRests};
use crate::{Readings, SureLink, SurePost, SureSink, SureSource};
use std::alloc::Global;
use tesla_base::NoMemory;
use tesla_desk::{
    CONSOLE, Desk, Environment, Letter, NoIncidents, Observed, OpenGate, OpenRefusal, SinkOutput,
};

/// A desk in memory on which no call from outside fails: its counts of faults are the constant 0.
///
/// A page that is missing is empty, and so is a link for which no letters were put. Its sinks and posts take every piece
/// whole and keep nothing, so they tell nothing, and a page isn't told once a sink was closed under its name. It tells all
/// else that a desk in memory tells.
#[derive(Drop)]
pub struct SureDesk {
    alloc: Global,
    pages: SurePages,
    rests: SureRests,
    asked: Entries<AskedOpening>,
    wires: Entries<Named<StoredLetters>>,
    remainders: StoredRemainders,
    clocks: ClockLists,
}

impl SureDesk {
    /// A desk for which nothing was put.
    pub fn new(alloc: Global) -> Result<SureDesk, NoMemory>
        ensures { IfOk result (λ desk. sure_told_by desk ≡ nothing_put) }
    {
        Ok(SureDesk {
            alloc,
            pages: Entries::Empty,
            rests: Entries::Empty,
            asked: Entries::Empty,
            wires: Entries::Empty,
            remainders: Entries::Empty,
            clocks: ClockLists::new(),
        })
    }

    /// Puts a copy of these bytes under the name, in the place of what was there.
    pub fn put_page(&mut self, name: &str, bytes: &[u8]) -> Result<(), NoMemory>
        ensures own { OnOk result ((sure_told_by self.new).page name.now ≡ Holds bytes.now false) }
        ensures pages { (n : List ℕ) → n ≢ name.now → (sure_told_by self.new).page n ≡ (sure_told_by self.old).page n }
        ensures err { OnErr result (sure_told_by self.new ≡ sure_told_by self.old) }
        ensures rest { sure_told_by self.new ≡ with_pages (sure_told_by self.new).page (sure_told_by self.old) }
    {
        let page = StoredPage {
            bytes: Vec::from_slice(self.alloc, bytes)?,
            failed: false,
        };
        put_under(&mut self.pages, self.alloc, name, Some(page))
    }

    /// Puts a copy of these letters there for links under the name, in the place of what was there.
    pub fn put_letters(&mut self, name: &str, letters: &[Letter]) -> Result<(), NoMemory>
        requires { list_all fits letters.now ≡ true }
        ensures own { OnOk result ((sure_told_by self.new).live.wire name.now ≡ HoldsWire letters.now) }
        ensures others { (n : List ℕ) → n ≢ name.now → (sure_told_by self.new).live.wire n ≡ (sure_told_by self.old).live.wire n }
        ensures err { OnErr result (sure_told_by self.new ≡ sure_told_by self.old) }
        ensures rest { sure_told_by self.new ≡ with_wires (sure_told_by self.new).live.wire (sure_told_by self.old) }
    {
        let letters = StoredLetters::copy(self.alloc, letters)?;
        put_under(&mut self.wires, self.alloc, name, letters)
    }

    /// Puts a copy of these readings there for the clock with this number, counted from 0, in the place of what was there.
    pub fn put_readings(&mut self, clock: u8, list: &[u64]) -> Result<(), NoMemory>
        ensures own { OnOk result (readings_in (sure_clocks_of self.new).lists clock ≡ list.now) }
        ensures others { (n : ℕ) → n ≢ clock → readings_in (sure_clocks_of self.new).lists n ≡ readings_in (sure_clocks_of self.old).lists n }
        ensures err { OnErr result (sure_told_by self.new ≡ sure_told_by self.old) }
        ensures rest { sure_told_by self.new ≡ with_told_readings (Some (readings_in (sure_clocks_of self.new).lists)) (sure_told_by self.old) }
    {
        self.clocks.put(self.alloc, u64::from(clock), list)
    }

    // The bytes under the name, where they are told. A page that is missing is empty.
    fn bytes(&self, name: &str) -> Option<&[u8]>
        ensures { option_map (λ bytes. bytes.now) result ≡ bytes_in (sure_page_under self.now name.now) }
    {
        let Some(page) = newest_under(&self.pages, name.as_bytes()) else {
            return Some(b"");
        };
        match page {
            Some(stored) => Some(stored.bytes.as_slice()),
            None => None,
        }
    }

    // A source of the page.
    fn source_of(&self, name: &str) -> Result<SureSource, NoMemory>
        ensures opened { IfOk result (λ it. Opened (sure_page_under self.now name.now) (sure_left_of it)) }
        ensures named { IfOk result (λ it. sure_source_name_of it ≡ name.now) }
    {
        SureSource::new(self.alloc, name, self.bytes(name))
    }

    // A link of the letters that are there.
    fn link_of(&self, name: &str) -> Result<SureLink, NoMemory>
        ensures opened { IfOk result (λ it. OpenedLink ((sure_live_of self.now).wire name.now) (Some (sure_letters_left it))) }
        ensures named { IfOk result (λ it. sure_link_name_of it ≡ name.now) }
    {
        match newest_under(&self.wires, name.as_bytes()) {
            Some(letters) => SureLink::new(self.alloc, name, letters),
            None => {
                let none = StoredLetters::none(self.alloc);
                SureLink::new(self.alloc, name, &none)
            }
        }
    }
}

impl Environment for SureDesk {
    type In = SureSource;

    type Out = SureSink;

    type Pieces = SinkOutput<SureSink>;

    type Wire = SureLink;

    type Port = SurePost;

    type Time = Readings;

    type Pause = OpenGate;

    ghost told = { sure_told_by };

    /// Never `Failed`.
    fn open_source(&mut self, name: &str) -> Result<SureSource, OpenRefusal>
        ensures opened { IfOk result (λ it. Opened ((sure_told_by self.old).page name.now) (sure_left_of it)) }
        ensures fresh { IfOk result (λ it. sure_faults_of it ≡ 0) }
        ensures named { IfOk result (λ it. sure_source_name_of it ≡ name.now) }
        ensures desk { OpensSource name.now result (sure_told_by self.old) (sure_told_by self.new) }
        ensures exact { Refuses false result }
    {
        let (text, spare) = Entries::spare_under(self.alloc, name)?;
        let source = self.source_of(name)?;
        self.asked.put(AskedOpening::Source(text), spare);
        Ok(source)
    }

    /// Never `Failed`.
    fn open_console(&mut self) -> Result<SureSink, OpenRefusal>
        ensures empty { IfOk result (λ it. IfSome (sure_written_of it) (λ bytes. bytes ≡ [])) }
        ensures fresh { IfOk result (λ it. sure_faults_of it ≡ 0) }
        ensures named { IfOk result (λ it. sure_sink_name_of it ≡ codes "-") }
        ensures desk { OpensSink (codes "-") result (sure_told_by self.old) (sure_told_by self.new) }
        ensures exact { Refuses false result }
    {
        self.open_sink(CONSOLE)
    }

    /// Never `Failed`.
    fn open_output(&mut self, name: &str) -> Result<SinkOutput<SureSink>, OpenRefusal>
        ensures empty { IfOk result (λ it. IfSome (sure_written_of it.sink) (λ bytes. bytes ≡ [])) }
        ensures fresh { IfOk result (λ it. sure_faults_of it ≡ 0) }
        ensures named { IfOk result (λ it. sure_sink_name_of it.sink ≡ name.now) }
        ensures desk { OpensSink name.now result (sure_told_by self.old) (sure_told_by self.new) }
        ensures exact { Refuses false result }
    {
        match self.open_sink(name) {
            Ok(sink) => Ok(SinkOutput { sink }),
            Err(refusal) => Err(refusal),
        }
    }

    fn close_source(&mut self, it: SureSource) {
        let (rest, spare) = it.close();
        self.rests.put(rest, spare);
    }

    fn close_sink(&mut self, it: SureSink) {
        let (page, spare) = it.close();
        self.pages.put(page, spare);
    }

    fn close_output(&mut self, it: SinkOutput<SureSink>) {
        let SinkOutput { sink } = it;
        self.close_sink(sink);
    }

    /// Never `Failed`.
    fn open_link(&mut self, name: &str) -> Result<SureLink, OpenRefusal>
        ensures opened { IfOk result (λ it. OpenedLink ((sure_told_by self.old).live.wire name.now) (Some (sure_letters_left it))) }
        ensures fresh { IfOk result (λ it. sure_faults_of it ≡ 0) }
        ensures named { IfOk result (λ it. sure_link_name_of it ≡ name.now) }
        ensures desk { OpensLink name.now result (sure_told_by self.old) (sure_told_by self.new) }
        ensures exact { Refuses false result }
    {
        let (text, spare) = Entries::spare_under(self.alloc, name)?;
        let link = self.link_of(name)?;
        self.asked.put(AskedOpening::Link(text), spare);
        Ok(link)
    }

    fn close_link(&mut self, it: SureLink) {
        let (remainder, spare) = it.close();
        self.remainders.put(remainder, spare);
    }

    /// Never `Failed`.
    fn open_post(&mut self, name: &str) -> Result<SurePost, OpenRefusal>
        ensures empty { IfOk result (λ it. IfSome (sure_sent_of it) (λ sent. sent ≡ [])) }
        ensures fresh { IfOk result (λ it. sure_faults_of it ≡ 0) }
        ensures named { IfOk result (λ it. sure_post_name_of it ≡ name.now) }
        ensures desk { OpensPost name.now result (sure_told_by self.old) (sure_told_by self.new) }
        ensures exact { Refuses false result }
    {
        let (text, spare) = Entries::spare_under(self.alloc, name)?;
        let post = SurePost::new(self.alloc, name)?;
        self.asked.put(AskedOpening::Post(text), spare);
        Ok(post)
    }

    fn close_post(&mut self, it: SurePost) {
        drop(it);
    }

    fn clock(&mut self) -> Readings {
        Readings::new(self.clocks.next(self.alloc))
    }

    fn gate(&mut self) -> OpenGate {
        OpenGate
    }
}

/// There are no incidents.
impl Observed for SureDesk {
    type Events = NoIncidents;

    fn incidents(&mut self) -> NoIncidents {
        NoIncidents
    }
}

impl Desk for SureDesk {
    /// Never `Failed`.
    fn open_sink(&mut self, name: &str) -> Result<SureSink, OpenRefusal>
        ensures empty { IfOk result (λ it. IfSome (sure_written_of it) (λ bytes. bytes ≡ [])) }
        ensures fresh { IfOk result (λ it. sure_faults_of it ≡ 0) }
        ensures named { IfOk result (λ it. sure_sink_name_of it ≡ name.now) }
        ensures desk { OpensSink name.now result (sure_told_by self.old) (sure_told_by self.new) }
        ensures pages { (n : List ℕ) → (sure_told_by self.new).page n ≡ (sure_told_by self.old).page n }
        ensures exact { Refuses false result }
    {
        let (text, spare) = Entries::spare_under(self.alloc, name)?;
        let sink = SureSink::new(self.alloc, name)?;
        self.asked.put(AskedOpening::Sink(text), spare);
        Ok(sink)
    }
}
