//! Sources, sinks, links and posts in memory of which no call fails.

ghost use Rattle.std.specs.Prelude.{◌≡◌, ◌<◌, ◌≤◌, length, [], Some, IfOk};
ghost use Rattle.tesla_desk.specs.Faults.{HasCause};

use crate::Letters;
use crate::calls::Calls;
use crate::entries::{Entries, Named};
use crate::stored::{StoredPage, StoredRest};
use crate::stored_letters::{StoredLetters, StoredRemainder, StoredRemainders};
use std::alloc::Global;
use tesla_base::{MOST_DATAGRAM, NoMemory, Text};
use tesla_desk::{Got, Link, Post, PostStep, ReadStep, Sink, Source, WriteStep};

/// Pages by name, of which those aren't told that a sink took: it kept nothing. Of those with one name the newest counts.
pub type SurePages = Entries<Named<Option<StoredPage>>>;

/// What was left of closed sources, where it is told, by name. Of those with one name the newest counts.
pub type SureRests = Entries<Named<Option<StoredRest>>>;

/// The bytes that a page held when it was opened, or, of a page that isn't told, none. No read fails.
pub struct SureSource {
    rest: Named<Option<StoredRest>>,
    spare: Box<SureRests>,
}

impl SureSource {
    ghost use Rattle.std.specs.Prelude.{◌≡◌, IfOk};
    ghost use Rattle.std.specs.Option.{option_map};
    ghost use Rattle.tesla_memory_desk.specs.Stored.{left_stored};
    ghost use Rattle.tesla_memory_desk.specs.Sure.{sure_left_of, sure_rest_of, sure_source_name_of};

    /// A source under this name of a copy of these bytes, where they are told.
    pub(crate) fn new(
        alloc: Global,
        name: &str,
        bytes: Option<&[u8]>,
    ) -> Result<SureSource, NoMemory>
        ensures name { IfOk result (λ it. sure_source_name_of it ≡ name.now) }
        ensures bytes { IfOk result (λ it. sure_left_of it ≡ option_map (λ bytes. bytes.now) bytes.entry) }
    {
        let (name, spare) = Entries::spare_under(alloc, name)?;
        let value = SureSource::stored(alloc, bytes)?;
        Ok(SureSource {
            rest: Named { name, value },
            spare,
        })
    }

    // A copy of bytes of which none was read.
    fn stored(alloc: Global, bytes: Option<&[u8]>) -> Result<Option<StoredRest>, NoMemory>
        ensures { IfOk result (λ rest. option_map left_stored rest ≡ option_map (λ bytes. bytes.now) bytes.entry) }
    {
        let Some(bytes) = bytes else {
            return Ok(None);
        };
        let bytes = Vec::from_slice(alloc, bytes)?;
        Ok(Some(StoredRest { bytes, at: 0 }))
    }

    /// What is left, and the box that puts it before others.
    pub(crate) fn close(self) -> (Named<Option<StoredRest>>, Box<SureRests>)
        ensures { result.0 ≡ sure_rest_of self }
    {
        let SureSource { rest, spare } = self;
        (rest, spare)
    }
}

impl Source for SureSource {
    ghost use Rattle.tesla_desk.specs.Outside.{Reads};
    ghost use Rattle.tesla_memory_desk.specs.Sure.{sure_left_of, sure_read_answer, sure_source_name_of};

    ghost left = { sure_left_of };

    ghost faults = { λ _. 0 };

    ghost name = { sure_source_name_of };

    /// Moves the least of the slice's length and what is left. Never `Failed`.
    fn read(&mut self, into: &mut [u8]) -> ReadStep
        requires { 0 < length into.old }
        ensures step { Reads (sure_left_of self.old) (sure_left_of self.new) into.new result }
        ensures cause { HasCause 0 0 (result ≡ ReadStep.Failed) }
        ensures name { sure_source_name_of self.new ≡ sure_source_name_of self.old }
        ensures exact { result ≡ sure_read_answer (length into.old) (sure_left_of self.old) }
    {
        match &mut self.rest.value {
            Some(rest) => rest.read(None, into),
            None => ReadStep::End,
        }
    }
}

/// What takes every piece whole and keeps nothing. No write fails.
pub struct SureSink {
    name: Text,
    spare: Box<SurePages>,
}

impl SureSink {
    ghost use Rattle.std.specs.Prelude.{◌≡◌, None, IfOk};
    ghost use Rattle.tesla_memory_desk.specs.Sure.{sure_sink_name_of};

    /// A sink under this name.
    pub(crate) fn new(alloc: Global, name: &str) -> Result<SureSink, NoMemory>
        ensures { IfOk result (λ it. sure_sink_name_of it ≡ name.now) }
    {
        let (name, spare) = Entries::spare_under(alloc, name)?;
        Ok(SureSink { name, spare })
    }

    /// A page under the name that isn't told, and the box that puts it before the others.
    pub(crate) fn close(self) -> (Named<Option<StoredPage>>, Box<SurePages>)
        ensures name { result.0.name ≡ sure_sink_name_of self }
        ensures untold { result.0.value ≡ None }
    {
        let SureSink { name, spare } = self;
        (Named { name, value: None }, spare)
    }
}

impl Sink for SureSink {
    ghost use Rattle.tesla_desk.specs.Outside.{Stalls, Writes};
    ghost use Rattle.tesla_memory_desk.specs.Sure.{sure_sink_name_of, sure_written_of};

    ghost written = { sure_written_of };

    ghost faults = { λ _. 0 };

    ghost name = { sure_sink_name_of };

    /// Takes the whole piece. Never `Failed`.
    #[tactic(auto, using(crate::proofs::Never::whole_never_stalls))]
    fn write(&mut self, piece: &[u8]) -> WriteStep
        ensures step { Writes (sure_written_of self.old) (sure_written_of self.new) piece.now result }
        ensures cause { HasCause 0 0 (Stalls piece.now result) }
        ensures name { sure_sink_name_of self.new ≡ sure_sink_name_of self.old }
        ensures exact { result ≡ WriteStep.Took (length piece.now) }
    {
        WriteStep::Took(piece.len())
    }
}

/// The letters that a desk had when the link was opened. No call fails.
#[derive(Drop)]
pub struct SureLink {
    letters: Letters,
    ghost none_fails: { letters.kept.calls.failing ≡ [] },
    ghost none_failed: { letters.kept.faults ≡ 0 },
}

impl SureLink {
    ghost use Rattle.std.specs.Prelude.{◌≡◌, Some, IfOk};
    ghost use Rattle.tesla_desk.specs.Live.{remainder_of};
    ghost use Rattle.tesla_memory_desk.specs.LiveMemory.{remainder_stored};
    ghost use Rattle.tesla_memory_desk.specs.Sure.{sure_letters_left, sure_link_name_of};

    /// A link under this name of a copy of these letters.
    pub(crate) fn new(
        alloc: Global,
        name: &str,
        letters: &StoredLetters,
    ) -> Result<SureLink, NoMemory>
        ensures name { IfOk result (λ it. sure_link_name_of it ≡ name.now) }
        ensures letters { IfOk result (λ it. sure_letters_left it ≡ letters.now.items.items) }
    {
        let calls = Calls::new(Vec::new(alloc));
        let letters = Letters::new(alloc, name, letters, calls)?;
        Ok(SureLink { letters })
    }

    /// What is left, and the box that puts it before others.
    pub(crate) fn close(self) -> (Named<StoredRemainder>, Box<StoredRemainders>)
        ensures name { result.0.name ≡ sure_link_name_of self }
        ensures rest { Some (remainder_stored result.0.value) ≡ remainder_of (Some (sure_letters_left self)) 0 }
    {
        let SureLink { letters } = self;
        letters.close()
    }
}

impl Link for SureLink {
    ghost use Rattle.tesla_desk.specs.Links.{Gets};
    ghost use Rattle.tesla_memory_desk.specs.LiveMemory.{answer_of};
    ghost use Rattle.tesla_memory_desk.specs.Sure.{sure_letters_left, sure_link_name_of};

    ghost left = { λ it. Some (sure_letters_left it) };

    ghost faults = { λ _. 0 };

    ghost name = { sure_link_name_of };

    /// Never `Failed`.
    fn next(&mut self, into: &mut [u8; MOST_DATAGRAM]) -> Got
        ensures step { Gets (Some (sure_letters_left self.old)) (Some (sure_letters_left self.new)) into.new result }
        ensures cause { HasCause 0 0 (result ≡ Got.Failed) }
        ensures name { sure_link_name_of self.new ≡ sure_link_name_of self.old }
        ensures exact { result ≡ answer_of (sure_letters_left self.old) }
    {
        self.letters.next(into)
    }
}

/// What sends every datagram and keeps none. No call fails.
#[derive(Drop)]
pub struct SurePost {
    name: Text,
}

impl SurePost {
    ghost use Rattle.std.specs.Prelude.{◌≡◌, IfOk};
    ghost use Rattle.tesla_memory_desk.specs.Sure.{sure_post_name_of};

    /// A post under this name.
    pub(crate) fn new(alloc: Global, name: &str) -> Result<SurePost, NoMemory>
        ensures { IfOk result (λ it. sure_post_name_of it ≡ name.now) }
    {
        Ok(SurePost {
            name: Text::new(alloc, name.as_bytes())?,
        })
    }
}

impl Post for SurePost {
    ghost use Rattle.tesla_desk.specs.Posts.{Posts};
    ghost use Rattle.tesla_memory_desk.specs.Sure.{sure_post_name_of, sure_sent_of};

    ghost sent = { sure_sent_of };

    ghost faults = { λ _. 0 };

    ghost name = { sure_post_name_of };

    /// Always `Sent`.
    fn send(&mut self, datagram: &[u8]) -> PostStep
        requires { length datagram.now ≤ 2048 }
        ensures step { Posts (sure_sent_of self.old) (sure_sent_of self.new) datagram.now result }
        ensures cause { HasCause 0 0 (result ≡ PostStep.Failed) }
        ensures name { sure_post_name_of self.new ≡ sure_post_name_of self.old }
        ensures exact { result ≡ PostStep.Sent }
    {
        let _ = datagram;
        PostStep::Sent
    }
}
