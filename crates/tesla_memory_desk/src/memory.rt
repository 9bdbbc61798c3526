//! A desk in memory.

ghost use Rattle.std.specs.Prelude.{◌≡◌, ◌≢◌, ◌<◌, ◌≤◌, ◌-◌, ◌^◌, ◌∷◌, true, false, List, ℕ, [], Some, IfOk, OnOk, OnErr, is_ok, if◌then◌else◌};
ghost use Rattle.std.specs.List.{list_all, slice_get};
ghost use Rattle.std.specs.Option.{option_map};
ghost use Rattle.tesla_memory_desk.specs.Calls.{new_calls, next_fails, with_failing};
ghost use Rattle.tesla_desk.specs.Faults.{after_source, after_sink};
ghost use Rattle.tesla_desk.specs.Links.{fits};
ghost use Rattle.tesla_desk.specs.Live.{OpenedLink, HoldsWire, clock_told};
ghost use Rattle.tesla_memory_desk.specs.LiveMemory.{readings_in, with_readings, after_made, letters_left, link_faults_of, link_name_of, remainder_stored, clock_told_of, datagrams_in, sent_by, post_faults_of, post_name_of};
ghost use Rattle.tesla_memory_desk.specs.Memory.{bytes_in, unread, source_name_of, stored_of, read_faults_of, name_of, bytes_of, write_faults_of, page_under, counts_of, live_of, told_by, settings_of, opening_calls_of, rest_of, new_rest, with_clocks, with_settings, with_opening_calls, after_closed, after_asked, Refuses, refuses_source, NewSource, NewSink, after_closed_link, refuses_link, NewLink, NewPost};
ghost use Rattle.tesla_desk.specs.Outside.{Untold, Absent, Holds, Opened, OfSource, OfSink, OfLink, OfPost, OpensSource, OpensSink, OpensLink, OpensPost, ClosesSource, ClosesSink, ClosesLink, ClosesPost, MakesClock};
ghost use Rattle.tesla_memory_desk.specs.Settings.{with_room, with_piece, with_failing_call, room_for, piece_for, failing_for};
ghost use Rattle.tesla_memory_desk.specs.Stored.{opening_of};

use crate::calls::Calls;
use crate::clock_lists::ClockLists;
use crate::entries::{Entries, Named, newest_under, put_under};
use crate::settings::Settings;
use crate::stored::{AskedOpening, StoredPage, StoredPages, StoredRests};
use crate::stored_letters::{StoredLetters, StoredRemainders};
use crate::stored_mail::StoredMails;
use crate::{Heap, Letters, Outbox, Pages, Readings};
use std::alloc::Global;
use tesla_base::NoMemory;
use tesla_desk::{
    CONSOLE, Desk, Environment, Letter, NoIncidents, Observed, OpenGate, OpenRefusal, SinkOutput,
};

/// A desk whose pages, letters, mail and readings are in memory. It tells all of them, and the openings that it was asked for.
#[derive(Drop)]
pub struct MemoryDesk {
    alloc: Global,
    settings: Settings,
    pages: StoredPages,
    rests: StoredRests,
    asked: Entries<AskedOpening>,
    calls: Calls,
    reads: u64,
    writes: u64,
    openings: u64,
    wires: Entries<Named<StoredLetters>>,
    remainders: StoredRemainders,
    mails: StoredMails,
    clocks: ClockLists,
}

impl MemoryDesk {
    /// A desk with no page and no faults, each of whose sinks and posts takes `room` bytes.
    pub fn new(alloc: Global, room: usize) -> Result<MemoryDesk, NoMemory>
        ensures pages { IfOk result (λ desk. (n : List ℕ) → page_under desk n ≡ Absent) }
        ensures rest { IfOk result (λ desk. rest_of desk ≡ new_rest room) }
    {
        Ok(MemoryDesk {
            alloc,
            settings: Settings::new(room),
            pages: Entries::Empty,
            rests: Entries::Empty,
            asked: Entries::Empty,
            calls: Calls::new(Vec::new(alloc)),
            reads: 0,
            writes: 0,
            openings: 0,
            wires: Entries::Empty,
            remainders: Entries::Empty,
            mails: Entries::Empty,
            clocks: ClockLists::new(),
        })
    }

    /// Puts a copy of these bytes under the name, in the place of what was there.
    pub fn put_page(&mut self, name: &str, bytes: &[u8]) -> Result<(), NoMemory>
        ensures own { OnOk result (page_under self.new name.now ≡ Holds bytes.now false) }
        ensures pages { (n : List ℕ) → n ≢ name.now → page_under self.new n ≡ page_under self.old n }
        ensures err { OnErr result ((n : List ℕ) → page_under self.new n ≡ page_under self.old n) }
        ensures rest { rest_of self.new ≡ rest_of self.old }
    {
        let page = StoredPage {
            bytes: Vec::from_slice(self.alloc, bytes)?,
            failed: false,
        };
        put_under(&mut self.pages, self.alloc, name, page)
    }

    /// The bytes under the name; `None` exactly where there is no such page.
    pub fn page(&self, name: &str) -> Option<&[u8]>
        ensures bytes { option_map (λ bytes. bytes.now) result ≡ bytes_in (page_under self.now name.now) }
        ensures told { page_under self.now name.now ≢ Untold }
    {
        match newest_under(&self.pages, name.as_bytes()) {
            Some(stored) => Some(stored.bytes.as_slice()),
            None => None,
        }
    }

    /// The datagram with this number, counted from 0, of those that the post sent that was closed last under the name;
    /// `None` exactly where there is none.
    pub fn posted(&self, name: &str, number: usize) -> Option<&[u8]>
        ensures { option_map (λ datagram. datagram.now) result ≡ slice_get (datagrams_in ((told_by self.now).live.mail name.now)) number }
    {
        match newest_under(&self.mails, name.as_bytes()) {
            Some(stored) => stored.datagram(number),
            None => None,
        }
    }

    /// Puts a copy of these letters there for links under the name, in the place of what was there.
    pub fn put_letters(&mut self, name: &str, letters: &[Letter]) -> Result<(), NoMemory>
        requires { list_all fits letters.now ≡ true }
        ensures own { OnOk result ((live_of self.new).wire name.now ≡ HoldsWire letters.now) }
        ensures others { (n : List ℕ) → n ≢ name.now → (live_of self.new).wire n ≡ (live_of self.old).wire n }
        ensures err { OnErr result (rest_of self.new ≡ rest_of self.old) }
        ensures pages { (n : List ℕ) → page_under self.new n ≡ page_under self.old n }
        ensures rest { rest_of self.new ≡ record (rest_of self.old) { wires = (rest_of self.new).wires } }
    {
        let letters = StoredLetters::copy(self.alloc, letters)?;
        put_under(&mut self.wires, self.alloc, name, letters)
    }

    /// Puts a copy of these readings there for the clock with this number, counted from 0, in the place of what was
    /// there. Clock 2^64 - 1, which every further clock is, has none.
    pub fn put_readings(&mut self, clock: u64, list: &[u64]) -> Result<(), NoMemory>
        ensures own { clock < 2 ^ 64 - 1 → OnOk result (readings_in (rest_of self.new).clocks.lists clock ≡ list.now) }
        ensures others { (n : ℕ) → n ≢ clock → readings_in (rest_of self.new).clocks.lists n ≡ readings_in (rest_of self.old).clocks.lists n }
        ensures pages { (n : List ℕ) → page_under self.new n ≡ page_under self.old n }
        ensures rest { rest_of self.new ≡ (if is_ok result then with_clocks (with_readings clock list.now) (rest_of self.old) else rest_of self.old) }
    {
        self.clocks.put(self.alloc, clock, list)
    }

    /// Sinks and posts that are opened under the name afterwards take `room` bytes.
    pub fn set_room(&mut self, name: &str, room: usize) -> Result<(), NoMemory>
        ensures own { OnOk result (room_for (settings_of self.new) name.now ≡ room) }
        ensures others { (n : List ℕ) → n ≢ name.now → room_for (settings_of self.new) n ≡ room_for (settings_of self.old) n }
        ensures pages { (n : List ℕ) → page_under self.new n ≡ page_under self.old n }
        ensures rest { rest_of self.new ≡ (if is_ok result then with_settings (with_room name.now room) (rest_of self.old) else rest_of self.old) }
    {
        self.settings.set_room(self.alloc, name, room)
    }

    /// Sources and sinks that are opened under the name afterwards move at most `most` bytes a call.
    pub fn set_piece(&mut self, name: &str, most: usize) -> Result<(), NoMemory>
        requires { 1 ≤ most }
        ensures own { OnOk result (piece_for (settings_of self.new) name.now ≡ Some most) }
        ensures others { (n : List ℕ) → n ≢ name.now → piece_for (settings_of self.new) n ≡ piece_for (settings_of self.old) n }
        ensures pages { (n : List ℕ) → page_under self.new n ≡ page_under self.old n }
        ensures rest { rest_of self.new ≡ (if is_ok result then with_settings (with_piece name.now most) (rest_of self.old) else rest_of self.old) }
    {
        self.settings.set_piece(self.alloc, name, most)
    }

    /// The opening with this number fails. Openings of sources, sinks, links and posts count together from 0,
    /// in the order in which they are asked for; one that finds no memory is not counted. An opening
    /// after number 2^64 - 2 has no number.
    pub fn fail_open(&mut self, call: u64) -> Result<(), NoMemory>
        ensures pages { (n : List ℕ) → page_under self.new n ≡ page_under self.old n }
        ensures rest { rest_of self.new ≡ (if is_ok result then with_opening_calls (with_failing call) (rest_of self.old) else rest_of self.old) }
    {
        self.calls.fail(call)
    }

    /// The call with this number fails of each source, sink, link and post that is opened under the name
    /// afterwards. The calls of each count from 0; one after number 2^64 - 2 has no number.
    pub fn fail_call(&mut self, name: &str, call: u64) -> Result<(), NoMemory>
        ensures own { OnOk result (failing_for (settings_of self.new) name.now ≡ call ∷ failing_for (settings_of self.old) name.now) }
        ensures others { (n : List ℕ) → n ≢ name.now → failing_for (settings_of self.new) n ≡ failing_for (settings_of self.old) n }
        ensures pages { (n : List ℕ) → page_under self.new n ≡ page_under self.old n }
        ensures rest { rest_of self.new ≡ (if is_ok result then with_settings (with_failing_call name.now call) (rest_of self.old) else rest_of self.old) }
    {
        self.settings.fail_call(self.alloc, name, call)
    }

    // The calls of an object that is opened under the name, unless the next opening fails by its number.
    fn calls_under(&self, name: &str) -> Result<Calls, OpenRefusal>
        ensures exact { Refuses (next_fails (opening_calls_of self.now)) result }
        ensures calls { IfOk result (λ calls. calls ≡ new_calls (failing_for (settings_of self.now) name.now)) }
    {
        if self.calls.next_fails() {
            return Err(OpenRefusal::Failed);
        }
        Ok(self.settings.calls(self.alloc, name)?)
    }

    // A source of the page, unless the next opening is refused.
    fn source_of(&self, name: &str) -> Result<Pages, OpenRefusal>
        ensures exact { Refuses (refuses_source self.now name.now) result }
        ensures set { IfOk result (λ it. NewSource self.now name.now it) }
    {
        let Some(stored) = newest_under(&self.pages, name.as_bytes()) else {
            return Err(OpenRefusal::Failed);
        };
        let calls = self.calls_under(name)?;
        let piece = self.settings.piece(name);
        let bytes = stored.bytes.as_slice();
        Ok(Pages::new(self.alloc, name, bytes, piece, calls)?)
    }

    // A sink under the name, unless the next opening fails.
    fn sink_of(&self, name: &str) -> Result<Heap, OpenRefusal>
        ensures exact { Refuses (next_fails (opening_calls_of self.now)) result }
        ensures set { IfOk result (λ it. NewSink self.now name.now it) }
    {
        let calls = self.calls_under(name)?;
        let (room, piece) = (self.settings.room(name), self.settings.piece(name));
        Ok(Heap::new(self.alloc, name, room, piece, calls)?)
    }

    // A link of the letters that are there, unless the next opening is refused.
    fn link_of(&self, name: &str) -> Result<Letters, OpenRefusal>
        ensures exact { Refuses (refuses_link self.now name.now) result }
        ensures set { IfOk result (λ it. NewLink self.now name.now it) }
    {
        let Some(letters) = newest_under(&self.wires, name.as_bytes()) else {
            return Err(OpenRefusal::Failed);
        };
        let calls = self.calls_under(name)?;
        Ok(Letters::new(self.alloc, name, letters, calls)?)
    }

    // A post under the name, unless the next opening fails.
    fn post_of(&self, name: &str) -> Result<Outbox, OpenRefusal>
        ensures exact { Refuses (next_fails (opening_calls_of self.now)) result }
        ensures set { IfOk result (λ it. NewPost self.now name.now it) }
    {
        let calls = self.calls_under(name)?;
        let room = self.settings.room(name);
        Ok(Outbox::new(self.alloc, name, room, calls)?)
    }

    // Enters an opening that came to this and counts it, also as failed. The box was made before, so that this takes no
    // memory.
    fn enter<T>(
        &mut self,
        asked: AskedOpening,
        spare: Box<Entries<AskedOpening>>,
        made: Result<T, OpenRefusal>,
    ) -> Result<T, OpenRefusal>
        ensures made { result ≡ made }
        ensures pages { (n : List ℕ) → page_under self.new n ≡ page_under self.old n }
        ensures rest { rest_of self.new ≡ after_asked (opening_of asked) result (rest_of self.old) }
    {
        match made {
            Ok(it) => {
                self.asked.put(asked, spare);
                self.calls.count();
                Ok(it)
            }
            Err(OpenRefusal::Failed) => {
                self.asked.put(asked, spare);
                self.calls.count();
                self.openings = self.openings.saturating_add(1);
                Err(OpenRefusal::Failed)
            }
            Err(OpenRefusal::NoMemory) => Err(OpenRefusal::NoMemory),
        }
    }
}

impl Environment for MemoryDesk {
    type In = Pages;

    type Out = Heap;

    type Pieces = SinkOutput<Heap>;

    type Wire = Letters;

    type Port = Outbox;

    type Time = Readings;

    type Pause = OpenGate;

    ghost told = { told_by };

    /// `Failed` exactly where the number of the opening is listed or there is no such page.
    fn open_source(&mut self, name: &str) -> Result<Pages, OpenRefusal>
        ensures opened { IfOk result (λ it. Opened (page_under self.old name.now) (Some (unread it))) }
        ensures fresh { IfOk result (λ it. read_faults_of it ≡ 0) }
        ensures named { IfOk result (λ it. source_name_of it ≡ name.now) }
        ensures desk { OpensSource name.now result (told_by self.old) (told_by self.new) }
        ensures exact { Refuses (refuses_source self.old name.now) result }
        ensures set { IfOk result (λ it. NewSource self.old name.now it) }
        ensures rest { rest_of self.new ≡ after_asked (OfSource name.now) result (rest_of self.old) }
    {
        let (text, spare) = Entries::spare_under(self.alloc, name)?;
        let made = self.source_of(name);
        self.enter(AskedOpening::Source(text), spare, made)
    }

    /// `Failed` exactly where the number of the opening is listed.
    fn open_console(&mut self) -> Result<Heap, OpenRefusal> {
        self.open_sink(CONSOLE)
    }

    /// `Failed` exactly where the number of the opening is listed.
    fn open_output(&mut self, name: &str) -> Result<SinkOutput<Heap>, OpenRefusal> {
        match self.open_sink(name) {
            Ok(sink) => Ok(SinkOutput { sink }),
            Err(refusal) => Err(refusal),
        }
    }

    fn close_source(&mut self, it: Pages)
        ensures desk { ClosesSource (source_name_of it) (Some (unread it)) (read_faults_of it) (told_by self.old) (told_by self.new) }
        ensures rest { rest_of self.new ≡ after_closed (stored_of it) (after_source (counts_of self.old) (read_faults_of it)) (rest_of self.old) }
    {
        let (rest, spare, faults) = it.close();
        if 0 < faults {
            self.reads = self.reads.saturating_add(1);
        }
        self.rests.put(rest, spare);
    }

    fn close_sink(&mut self, it: Heap)
        ensures desk { ClosesSink (name_of it) (Some (bytes_of it)) (write_faults_of it) (told_by self.old) (told_by self.new) }
        ensures rest { rest_of self.new ≡ record (rest_of self.old) { counts = after_sink (counts_of self.old) (write_faults_of it) } }
    {
        let (page, spare) = it.close();
        if page.value.failed {
            self.writes = self.writes.saturating_add(1);
        }
        self.pages.put(page, spare);
    }

    fn close_output(&mut self, it: SinkOutput<Heap>) {
        let SinkOutput { sink } = it;
        self.close_sink(sink);
    }

    /// `Failed` exactly where the number of the opening is listed or there is nothing for such a link.
    fn open_link(&mut self, name: &str) -> Result<Letters, OpenRefusal>
        ensures opened { IfOk result (λ it. OpenedLink ((live_of self.old).wire name.now) (Some (letters_left it))) }
        ensures fresh { IfOk result (λ it. link_faults_of it ≡ 0) }
        ensures named { IfOk result (λ it. link_name_of it ≡ name.now) }
        ensures desk { OpensLink name.now result (told_by self.old) (told_by self.new) }
        ensures exact { Refuses (refuses_link self.old name.now) result }
        ensures set { IfOk result (λ it. NewLink self.old name.now it) }
        ensures rest { rest_of self.new ≡ after_asked (OfLink name.now) result (rest_of self.old) }
    {
        let (text, spare) = Entries::spare_under(self.alloc, name)?;
        let made = self.link_of(name);
        self.enter(AskedOpening::Link(text), spare, made)
    }

    fn close_link(&mut self, it: Letters)
        ensures desk { ClosesLink (link_name_of it) (Some (letters_left it)) (link_faults_of it) (told_by self.old) (told_by self.new) }
        ensures counts { counts_of self.new ≡ after_source (counts_of self.old) (link_faults_of it) }
        ensures rest { rest_of self.new ≡ record (rest_of self.old) { counts = counts_of self.new; remainders = (rest_of self.new).remainders } }
    {
        let (remainder, spare) = it.close();
        if remainder.value.failed {
            self.reads = self.reads.saturating_add(1);
        }
        self.remainders.put(remainder, spare);
    }

    /// `Failed` exactly where the number of the opening is listed.
    fn open_post(&mut self, name: &str) -> Result<Outbox, OpenRefusal>
        ensures empty { IfOk result (λ it. sent_by it ≡ []) }
        ensures fresh { IfOk result (λ it. post_faults_of it ≡ 0) }
        ensures named { IfOk result (λ it. post_name_of it ≡ name.now) }
        ensures desk { OpensPost name.now result (told_by self.old) (told_by self.new) }
        ensures exact { Refuses (next_fails (opening_calls_of self.old)) result }
        ensures set { IfOk result (λ it. NewPost self.old name.now it) }
        ensures rest { rest_of self.new ≡ after_asked (OfPost name.now) result (rest_of self.old) }
    {
        let (text, spare) = Entries::spare_under(self.alloc, name)?;
        let made = self.post_of(name);
        self.enter(AskedOpening::Post(text), spare, made)
    }

    fn close_post(&mut self, it: Outbox)
        ensures desk { ClosesPost (post_name_of it) (Some (sent_by it)) (post_faults_of it) (told_by self.old) (told_by self.new) }
        ensures counts { counts_of self.new ≡ after_sink (counts_of self.old) (post_faults_of it) }
        ensures rest { rest_of self.new ≡ record (rest_of self.old) { counts = counts_of self.new; mails = (rest_of self.new).mails } }
    {
        let (mail, spare) = it.close();
        if mail.value.failed {
            self.writes = self.writes.saturating_add(1);
        }
        self.mails.put(mail, spare);
    }

    fn clock(&mut self) -> Readings
        ensures told { clock_told_of result ≡ clock_told (live_of self.old).readings (live_of self.old).made }
        ensures desk { MakesClock (told_by self.old) (told_by self.new) }
        ensures rest { rest_of self.new ≡ with_clocks after_made (rest_of self.old) }
    {
        Readings::new(self.clocks.next(self.alloc))
    }

    fn gate(&mut self) -> OpenGate
        ensures desk { told_by self.new ≡ told_by self.old }
        ensures rest { rest_of self.new ≡ rest_of self.old }
    {
        OpenGate
    }
}

/// There are no incidents.
impl Observed for MemoryDesk {
    type Events = NoIncidents;

    fn incidents(&mut self) -> NoIncidents {
        NoIncidents
    }
}

impl Desk for MemoryDesk {
    /// `Failed` exactly where the number of the opening is listed.
    fn open_sink(&mut self, name: &str) -> Result<Heap, OpenRefusal>
        ensures empty { IfOk result (λ it. bytes_of it ≡ []) }
        ensures fresh { IfOk result (λ it. write_faults_of it ≡ 0) }
        ensures named { IfOk result (λ it. name_of it ≡ name.now) }
        ensures desk { OpensSink name.now result (told_by self.old) (told_by self.new) }
        ensures pages { (n : List ℕ) → page_under self.new n ≡ page_under self.old n }
        ensures exact { Refuses (next_fails (opening_calls_of self.old)) result }
        ensures set { IfOk result (λ it. NewSink self.old name.now it) }
        ensures rest { rest_of self.new ≡ after_asked (OfSink name.now) result (rest_of self.old) }
    {
        let (text, spare) = Entries::spare_under(self.alloc, name)?;
        let made = self.sink_of(name);
        self.enter(AskedOpening::Sink(text), spare, made)
    }
}
