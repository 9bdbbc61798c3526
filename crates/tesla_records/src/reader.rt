//! A file of records of one format, read from a source, record after record.

ghost use Rattle.std.specs.Prelude.{◌≡◌, ◌↔◌, ◌<◌, ◌≤◌, ◌+◌, [], List, ℕ, Option, None, Some, true, take, drop};
ghost use Rattle.std.specs.Option.{option_map};
ghost use Rattle.tesla_desk.specs.Faults.{HasCause};
ghost use Rattle.tesla_records.specs.Grammar.{limit, HeadIs, Whole};
ghost use Rattle.tesla_records.specs.Judged.{BeginsWhole, TakesWhole};
ghost use Rattle.tesla_records.specs.Found.{Finds, IsPending, AwaitsAt};
ghost use Rattle.tesla_records.specs.Steps.{pending, ahead, Gives, Moves, MovesHead, ReadsHead, goes_on, Puts};

use crate::format::Format;
use crate::found::{Found, HeadFound};
use crate::pieces::PieceReader;
use crate::refusal::Refusal;
use crate::step::RecordsStep;
use std::marker::Model;
use tesla_desk::Source;

/// Reads a file of at most 2^40 bytes in the format `F`. It holds at most 4,096 bytes that it has read ahead.
#[derive(Drop)]
pub struct RecordsReader<F: Format> {
    pieces: PieceReader,
    going: bool,
    head: Option<F::Head>,
}

impl<F: Format> Model for RecordsReader<F> {
    ghost use Rattle.tesla_records.specs.Steps.{Progress};
    ghost use Rattle.tesla_records.specs.Pieces.{progress};

    ghost Value = { Progress F.Head };

    ghost view = { λ reader. progress reader.pieces reader.going reader.head };
}

impl<F: Format> RecordsReader<F> {
    /// A reader that has read nothing. It takes no memory.
    pub fn new() -> RecordsReader<F>
        ensures pending { pending result ≡ [] }
        ensures place { result.place ≡ 0 }
        ensures going { result.going ≡ true }
        ensures head { result.head ≡ None }
    {
        RecordsReader {
            pieces: PieceReader::at(0),
            going: true,
            head: None,
        }
    }

    /// A reader in another format of the same file, of which nothing was taken yet: what was read ahead is pending there.
    /// After `BadHead` that is all of the file.
    pub fn as_format<G: Format>(self) -> RecordsReader<G>
        requires { self.place ≡ 0 }
        ensures pending { pending result ≡ pending self }
        ensures place { result.place ≡ 0 }
        ensures going { result.going ≡ true }
        ensures head { result.head ≡ None }
    {
        let pieces = self.pieces;
        RecordsReader {
            pieces,
            going: true,
            head: None,
        }
    }

    /// Whether the last step gave a record, or there was none yet.
    pub fn going(&self) -> bool
        ensures { result ≡ self.now.going }
    {
        self.going
    }

    /// How many bytes were taken as whole records, with the head; 0 before the head was taken.
    pub fn place(&self) -> u64
        ensures value { result ≡ self.now.place }
        ensures limited { result ≤ limit }
    {
        self.pieces.place()
    }

    /// What the head told; `None` before it was taken.
    pub fn head(&self) -> Option<F::Head>
        ensures { result ≡ self.now.head }
    {
        self.head
    }

    /// The next record, which is put into the room, with what is told beside it, or why there is none. The source is
    /// asked for more only while neither a whole record nor a refused place is pending, and for no byte
    /// behind the first 2^40 but the one that tells whether the file goes on there. It takes no memory.
    ///
    /// `Refused` comes exactly where the file isn't in its grammar by the record at that place, `End` exactly
    /// where it ends after a whole record or the head, and `ReadFault` exactly where the source's count of
    /// faults rose.
    ///
    /// No byte is dropped: what isn't taken is pending, or left in the source. After a record that is all
    /// behind it, after `End` nothing, and after `Refused` all from its place on, but for the byte that told
    /// that the file goes on behind the limit. After `ReadFault` it is all that was ahead, less the head
    /// where that was taken, as `place` tells, and what is pending holds neither a whole record nor a refused
    /// place. After anything but a record the room stays as it was.
    pub fn next<S: Source>(
        &mut self,
        source: &mut S,
        room: &mut F::Room,
    ) -> RecordsStep<F::Kind, F::Taken>
        requires going { self.old.going ≡ true }
        ensures gives { (rest : List ℕ) → ahead self.old (S.left source.old) ≡ Some rest → Gives F.grammar F.kind_of (λ taken. F.shown taken room.new) result self.old.place rest self.new.place (ahead self.new (S.left source.new)) }
        ensures moves { Moves F.grammar (λ taken. F.shown taken room.new) result self.old.place self.new.place }
        ensures heads { MovesHead F.grammar self.old.place (option_map F.head_of self.old.head) self.new.place (option_map F.head_of self.new.head) }
        ensures head { (rest : List ℕ) → ahead self.old (S.left source.old) ≡ Some rest → ReadsHead F.grammar self.old.place rest self.new.place (option_map F.head_of self.new.head) }
        ensures room { Puts F.fits result room.old room.new }
        ensures limited { self.new.place ≤ limit }
        ensures goes { self.new.going ≡ goes_on result }
        ensures cut { result ≡ RecordsStep.ReadFault → AwaitsAt F.grammar self.new.place (pending self.new) }
        ensures cause { HasCause (S.faults source.old) (S.faults source.new) (result ≡ RecordsStep.ReadFault) }
        ensures name { S.name source.new ≡ S.name source.old }
    {
        let step = self.step(source, room);
        self.going = matches!(step, RecordsStep::Record(_));
        self.is_limited();
        step
    }

    /// What was taken is within the limit.
    fn is_limited(&self)
        ensures { self.now.place ≤ limit }
    {
        let _place = self.pieces.place();
    }

    /// What `next` answers.
    fn step<S: Source>(
        &mut self,
        source: &mut S,
        room: &mut F::Room,
    ) -> RecordsStep<F::Kind, F::Taken>
        ensures gives { (rest : List ℕ) → ahead self.old (S.left source.old) ≡ Some rest → Gives F.grammar F.kind_of (λ taken. F.shown taken room.new) result self.old.place rest self.new.place (ahead self.new (S.left source.new)) }
        ensures moves { Moves F.grammar (λ taken. F.shown taken room.new) result self.old.place self.new.place }
        ensures heads { MovesHead F.grammar self.old.place (option_map F.head_of self.old.head) self.new.place (option_map F.head_of self.new.head) }
        ensures head { (rest : List ℕ) → ahead self.old (S.left source.old) ≡ Some rest → ReadsHead F.grammar self.old.place rest self.new.place (option_map F.head_of self.new.head) }
        ensures room { Puts F.fits result room.old room.new }
        ensures cut { result ≡ RecordsStep.ReadFault → AwaitsAt F.grammar self.new.place (pending self.new) }
        ensures cause { HasCause (S.faults source.old) (S.faults source.new) (result ≡ RecordsStep.ReadFault) }
        ensures name { S.name source.new ≡ S.name source.old }
    {
        if self.place() != 0 {
            return self.next_record(source, room);
        }
        match self.pieces.find_head::<F, S>(source) {
            HeadFound::Whole(head) => {
                self.take_head(head);
                self.next_record(source, room)
            }
            HeadFound::Bad => RecordsStep::Refused {
                place: 0,
                refusal: Refusal::BadHead,
            },
            HeadFound::Failed => RecordsStep::ReadFault,
        }
    }

    /// Takes the head that is pending.
    fn take_head(&mut self, head: F::Head)
        requires { F.grammar.parse_head (pending self.old) ≡ HeadIs (F.head_of head) }
        ensures pending { pending self.new ≡ drop F.grammar.head_size (pending self.old) }
        ensures place { self.new.place ≡ self.old.place + F.grammar.head_size }
        ensures limits { F.grammar.IsHead (F.head_of head) }
        ensures spelled { take F.grammar.head_size (pending self.old) ≡ F.grammar.head_text (F.head_of head) }
        ensures head { self.new.head ≡ Some head }
    {
        // It holds bytes.
        let _pending = self.pieces.pending();
        self.pieces.advance(F::head_size());
        self.head = Some(head);
    }

    /// What comes next after the head.
    fn next_record<S: Source>(
        &mut self,
        source: &mut S,
        room: &mut F::Room,
    ) -> RecordsStep<F::Kind, F::Taken>
        requires placed { 0 < self.old.place }
        ensures gives { (rest : List ℕ) → ahead self.old (S.left source.old) ≡ Some rest → Gives F.grammar F.kind_of (λ taken. F.shown taken room.new) result self.old.place rest self.new.place (ahead self.new (S.left source.new)) }
        ensures moves { Moves F.grammar (λ taken. F.shown taken room.new) result self.old.place self.new.place }
        ensures onward { self.old.place ≤ self.new.place }
        ensures head { self.new.head ≡ self.old.head }
        ensures room { Puts F.fits result room.old room.new }
        ensures cut { result ≡ RecordsStep.ReadFault → AwaitsAt F.grammar self.new.place (pending self.new) }
        ensures cause { HasCause (S.faults source.old) (S.faults source.new) (result ≡ RecordsStep.ReadFault) }
        ensures name { S.name source.new ≡ S.name source.old }
    {
        let found = self.pieces.find_record::<F, S>(source);
        self.take_record(found, room)
    }

    /// Takes the record that was found, or says why there is none.
    fn take_record(
        &mut self,
        found: Found<F::Kind>,
        room: &mut F::Room,
    ) -> RecordsStep<F::Kind, F::Taken>
        requires placed { 0 < self.old.place }
        requires whole { IsPending F.grammar found (pending self.old) }
        ensures gives { (rest : List ℕ) (left : Option (List ℕ)) → Finds F.grammar F.kind_of found self.old.place (pending self.old) rest left → Gives F.grammar F.kind_of (λ taken. F.shown taken room.new) result self.old.place rest self.new.place (ahead self.new left) }
        ensures moves { Moves F.grammar (λ taken. F.shown taken room.new) result self.old.place self.new.place }
        ensures onward { self.old.place ≤ self.new.place }
        ensures head { self.new.head ≡ self.old.head }
        ensures room { Puts F.fits result room.old room.new }
        ensures failed { result ≡ RecordsStep.ReadFault ↔ (found ≡ Found.Failed) }
        ensures kept { result ≡ RecordsStep.ReadFault → self.new ≡ self.old }
    {
        match found {
            Found::Record(size) => { RecordsStep::Record(self.take_whole(size, room)) }
            Found::Refused(refusal) => RecordsStep::Refused {
                place: self.place(),
                refusal,
            },
            Found::End => RecordsStep::End,
            Found::Failed => RecordsStep::ReadFault,
        }
    }

    /// Takes a whole record of so many bytes, which is put into the room.
    fn take_whole(&mut self, size: usize, room: &mut F::Room) -> F::Taken
        requires { BeginsWhole F.grammar size (pending self.old) }
        ensures pending { pending self.new ≡ drop size (pending self.old) }
        ensures place { self.new.place ≡ self.old.place + size }
        ensures head { self.new.head ≡ self.old.head }
        ensures fits { F.fits result room.old room.new }
        ensures took { (it : F.grammar.Record) → F.grammar.parse (pending self.old) ≡ Whole it size → TakesWhole F.grammar (pending self.old) it size (F.shown result room.new) }
    {
        let taken = F::put(&self.pieces.pending()[..size], room);
        self.pieces.advance(size);
        taken
    }
}
