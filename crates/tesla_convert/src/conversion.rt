//! A file of records that is converted from its front to its end.

ghost use Rattle.std.specs.Prelude.{◌≡◌, ◌+◌, ◌<◌, ◌≤◌, [], ℕ, List, Some, None, Ok, Err, true, IfSome, take};
ghost use Rattle.tesla_capture.specs.Gathering.{gathered};
ghost use Rattle.tesla_capture.specs.Grammar.{limit};
ghost use Rattle.tesla_capture.specs.Records.{record_offset};
ghost use Rattle.tesla_capture.specs.Steps.{ahead};
ghost use Rattle.tesla_desk.specs.Faults.{HasCause, HasCauseBeside};
ghost use Rattle.tesla_convert.specs.Held.{HoldsText};
ghost use Rattle.tesla_convert.specs.Records.{Answers};
ghost use Rattle.tesla_convert.specs.Steps.{AllTo, Converts, GoesUp, IsAt, IsWanting, RecordsTo, StepsTo, ending_at};

use crate::converter::{Converted, Converter, Halt, TakenRecord};
use crate::settling::settle;
use tesla_base::MOST_DATAGRAM;
use tesla_capture::{Gatherer, RecordReader, RecordStep};
use tesla_desk::{Sink, Source};

/// The offset of the first record of a file, behind its head.
const FIRST: u64 = 5;

/// How the records of a file end.
#[derive(Clone, Copy, Debug, Drop, PartialEq, Eq)]
pub enum Ending<K> {
    /// With the end of the file.
    End,
    /// With the place of a record, as its offset in bytes from the file's begin, that is refused.
    Refused { place: u64, kind: K },
}

/// What stops a conversion.
#[derive(Clone, Copy, Debug, PartialEq, Eq)]
pub enum Stopped {
    /// A read failed: the source's count of faults rose.
    Read,
    /// A write failed: the sink's did.
    Write,
    /// Memory was wanting, which comes only with a converter whose `may_want` is true. Nothing is gathered any more.
    Memory,
}

/// Converts a file of records, and writes what the converter makes of it. It owns the rooms that this takes.
#[derive(Drop)]
pub struct Conversion<C> {
    converter: C,
    gatherer: Gatherer,
    room: [u8; MOST_DATAGRAM],
}

// The offset of the record that is read from a place on: that of the first is behind the head.
fn offset_of(place: u64) -> u64
    ensures { result ≡ record_offset place }
{
    if place == 0 { FIRST } else { place }
}

// After a record that was converted there may be more. One that is refused ends the file at its offset.
fn ending_at<K>(place: u64, converted: Converted<K>) -> Result<Option<Ending<K>>, Stopped>
    ensures { result ≡ ending_at place converted }
{
    match converted {
        Converted::Whole => Ok(None),
        Converted::Refused(kind) => Ok(Some(Ending::Refused { place, kind })),
        Converted::WriteFault => Err(Stopped::Write),
        Converted::NoMemory => Err(Stopped::Memory),
    }
}

impl<C: Converter> Conversion<C> {
    /// A conversion by this converter.
    pub fn new(converter: C) -> Conversion<C>
        ensures converter { result.converter ≡ converter }
        ensures none { gathered result.gatherer ≡ [] }
    {
        Conversion {
            converter,
            gatherer: Gatherer::new(),
            room: [0; MOST_DATAGRAM],
        }
    }

    // Converts a record that carries so many bytes of the room.
    fn convert_carrying<O: Sink>(
        &mut self,
        reading: u64,
        length: usize,
        out: &mut O,
    ) -> Converted<C::Kind>
        requires few { length ≤ 2048 }
        requires within { length ≤ C.grammar.longest }
        requires calls { C.calls self.old.converter ≤ limit }
        requires sound { O.faults out.old ≡ 0 }
        ensures answers { (rs : List C.grammar.Record) → C.has self.old.converter rs →
            Answers C.grammar (C.rule self.old.converter) (C.has self.new.converter) rs (C.grammar.carrying reading (take length self.old.room)) result (O.written out.old) (O.written out.new) (gathered self.old.gatherer) (gathered self.new.gatherer) }
        ensures rule { C.rule self.new.converter ≡ C.rule self.old.converter }
        ensures calls { C.calls self.new.converter ≤ C.calls self.old.converter + 1 }
        ensures wants { let first = C.grammar.carrying reading (take length self.old.room) in
            result ≡ Converted.NoMemory → (C.may_want ≡ true) × ((rs : List C.grammar.Record) → C.has self.old.converter rs → C.wants rs (Some first) ((C.rule self.old.converter).adds rs first)) }
        ensures cause { HasCause (O.faults out.old) (O.faults out.new) (result ≡ Converted.WriteFault) }
        ensures name { O.name out.new ≡ O.name out.old }
    {
        let bytes = &self.room[..length];
        let taken = TakenRecord::Carrying { reading, bytes };
        self.converter.convert(taken, &mut self.gatherer, out)
    }

    // Converts a record that carries nothing.
    fn convert_bare<O: Sink>(&mut self, reading: u64, out: &mut O) -> Converted<C::Kind>
        requires calls { C.calls self.old.converter ≤ limit }
        requires sound { O.faults out.old ≡ 0 }
        ensures answers { (rs : List C.grammar.Record) → C.has self.old.converter rs →
            Answers C.grammar (C.rule self.old.converter) (C.has self.new.converter) rs (C.grammar.bare reading) result (O.written out.old) (O.written out.new) (gathered self.old.gatherer) (gathered self.new.gatherer) }
        ensures rule { C.rule self.new.converter ≡ C.rule self.old.converter }
        ensures calls { C.calls self.new.converter ≤ C.calls self.old.converter + 1 }
        ensures wants { let first = C.grammar.bare reading in
            result ≡ Converted.NoMemory → (C.may_want ≡ true) × ((rs : List C.grammar.Record) → C.has self.old.converter rs → C.wants rs (Some first) ((C.rule self.old.converter).adds rs first)) }
        ensures cause { HasCause (O.faults out.old) (O.faults out.new) (result ≡ Converted.WriteFault) }
        ensures name { O.name out.new ≡ O.name out.old }
    {
        let taken = TakenRecord::Bare { reading };
        self.converter.convert(taken, &mut self.gatherer, out)
    }

    // Converts the next record. `None`: it was converted, and there may be more. Nothing is read once a write has failed.
    fn step<S: Source, O: Sink>(
        &mut self,
        reader: &mut RecordReader<C::Input>,
        source: &mut S,
        out: &mut O,
    ) -> Result<Option<Ending<C::Kind>>, Stopped>
        requires going { reader.old.going ≡ true }
        requires calls { C.calls self.old.converter ≤ limit }
        requires sound { O.faults out.old ≡ 0 }
        ensures steps { (bytes : List ℕ) → IsAt C.grammar C.Kind (C.rule self.old.converter) (C.has self.old.converter) bytes reader.old.place (ahead reader.old (S.left source.old)) (O.written out.old) (gathered self.old.gatherer) →
            StepsTo C.grammar C.Kind (C.rule self.old.converter) (C.has self.new.converter) result bytes reader.new.place (ahead reader.new (S.left source.new)) (S.left source.new) (O.written out.new) (gathered self.new.gatherer) }
        ensures rule { C.rule self.new.converter ≡ C.rule self.old.converter }
        ensures calls { C.calls self.new.converter ≤ C.calls self.old.converter + 1 }
        ensures rises { result ≡ Ok None → GoesUp reader.old reader.new }
        ensures wants { result ≡ Err Stopped.Memory → (C.may_want ≡ true)
            × ((bytes : List ℕ) → IsAt C.grammar C.Kind (C.rule self.old.converter) (C.has self.old.converter) bytes reader.old.place (ahead reader.old (S.left source.old)) (O.written out.old) (gathered self.old.gatherer) →
            IsWanting C.grammar C.Kind (C.rule self.old.converter) C.wants bytes (O.written out.new)) }
        ensures reads { HasCause (S.faults source.old) (S.faults source.new) (result ≡ Err Stopped.Read) }
        ensures writes { HasCause (O.faults out.old) (O.faults out.new) (result ≡ Err Stopped.Write) }
        ensures input { S.name source.new ≡ S.name source.old }
        ensures output { O.name out.new ≡ O.name out.old }
    {
        let place = offset_of(reader.place());
        match C::next(reader, source, &mut self.room) {
            RecordStep::Carrying { reading, length } => {
                ending_at(place, self.convert_carrying(reading, length as usize, out))
            }
            RecordStep::Bare { reading } => ending_at(place, self.convert_bare(reading, out)),
            RecordStep::End => Ok(Some(Ending::End)),
            RecordStep::Refused { place, kind } => {
                let kind = self.converter.kind_of(kind);
                Ok(Some(Ending::Refused { place, kind }))
            }
            RecordStep::ReadFault => Err(Stopped::Read),
        }
    }

    // Converts the records of the file, up to its end or to the first that is refused.
    fn convert_records<S: Source, O: Sink>(
        &mut self,
        source: &mut S,
        out: &mut O,
    ) -> Result<Ending<C::Kind>, Stopped>
        requires calls { C.calls self.old.converter ≡ 0 }
        requires sound { O.faults out.old ≡ 0 }
        ensures converts { (bytes : List ℕ) → S.left source.old ≡ Some bytes → C.has self.old.converter [] → HoldsText (O.written out.old) (gathered self.old.gatherer) (C.rule self.old.converter).begins →
            RecordsTo C.grammar C.Kind (C.rule self.old.converter) (C.has self.new.converter) result bytes (S.left source.new) (O.written out.new) (gathered self.new.gatherer) }
        ensures rule { C.rule self.new.converter ≡ C.rule self.old.converter }
        ensures calls { C.calls self.new.converter ≤ limit + 1 }
        ensures wants { result ≡ Err Stopped.Memory → (C.may_want ≡ true)
            × ((bytes : List ℕ) → S.left source.old ≡ Some bytes → C.has self.old.converter [] → HoldsText (O.written out.old) (gathered self.old.gatherer) (C.rule self.old.converter).begins →
            IsWanting C.grammar C.Kind (C.rule self.old.converter) C.wants bytes (O.written out.new)) }
        ensures reads { HasCause (S.faults source.old) (S.faults source.new) (result ≡ Err Stopped.Read) }
        ensures writes { HasCause (O.faults out.old) (O.faults out.new) (result ≡ Err Stopped.Write) }
        ensures input { S.name source.new ≡ S.name source.old }
        ensures output { O.name out.new ≡ O.name out.old }
    {
        let mut reader = RecordReader::new();
        loop {
            match self.step(&mut reader, source, out) {
                Ok(None) => {}
                Ok(Some(ending)) => return Ok(ending),
                Err(stopped) => return Err(stopped),
            }
        }
    }

    // Converts the records of the file, and where they end with it its end.
    fn convert_to_end<S: Source, O: Sink>(
        &mut self,
        source: &mut S,
        out: &mut O,
    ) -> Result<Ending<C::Kind>, Stopped>
        requires calls { C.calls self.old.converter ≡ 0 }
        requires sound { O.faults out.old ≡ 0 }
        ensures converts { (bytes : List ℕ) → S.left source.old ≡ Some bytes → C.has self.old.converter [] → HoldsText (O.written out.old) (gathered self.old.gatherer) (C.rule self.old.converter).begins →
            AllTo C.grammar C.Kind (C.rule self.old.converter) (C.ended self.new.converter) result bytes (S.left source.new) (O.written out.new) (gathered self.new.gatherer) }
        ensures wants { result ≡ Err Stopped.Memory → (C.may_want ≡ true)
            × ((bytes : List ℕ) → S.left source.old ≡ Some bytes → C.has self.old.converter [] → HoldsText (O.written out.old) (gathered self.old.gatherer) (C.rule self.old.converter).begins →
            IsWanting C.grammar C.Kind (C.rule self.old.converter) C.wants bytes (O.written out.new)) }
        ensures reads { HasCause (S.faults source.old) (S.faults source.new) (result ≡ Err Stopped.Read) }
        ensures writes { HasCause (O.faults out.old) (O.faults out.new) (result ≡ Err Stopped.Write) }
        ensures input { S.name source.new ≡ S.name source.old }
        ensures output { O.name out.new ≡ O.name out.old }
    {
        match self.convert_records(source, out) {
            Ok(Ending::End) => match self.converter.finish(&mut self.gatherer, out) {
                Ok(()) => Ok(Ending::End),
                Err(Halt::WriteFault) => Err(Stopped::Write),
                Err(Halt::NoMemory) => Err(Stopped::Memory),
            },
            Ok(Ending::Refused { place, kind }) => Ok(Ending::Refused { place, kind }),
            Err(stopped) => Err(stopped),
        }
    }

    // Puts what stands before all records, and converts the file.
    fn convert_all<S: Source, O: Sink>(
        &mut self,
        source: &mut S,
        out: &mut O,
    ) -> Result<Ending<C::Kind>, Stopped>
        requires calls { C.calls self.old.converter ≡ 0 }
        requires sound { O.faults out.old ≡ 0 }
        ensures converts { (bytes : List ℕ) → S.left source.old ≡ Some bytes → C.has self.old.converter [] → HoldsText (O.written out.old) (gathered self.old.gatherer) [] →
            AllTo C.grammar C.Kind (C.rule self.old.converter) (C.ended self.new.converter) result bytes (S.left source.new) (O.written out.new) (gathered self.new.gatherer) }
        ensures wants { result ≡ Err Stopped.Memory → (C.may_want ≡ true)
            × ((bytes : List ℕ) → S.left source.old ≡ Some bytes → C.has self.old.converter [] → HoldsText (O.written out.old) (gathered self.old.gatherer) [] →
            IsWanting C.grammar C.Kind (C.rule self.old.converter) C.wants bytes (O.written out.new)) }
        ensures reads { HasCause (S.faults source.old) (S.faults source.new) (result ≡ Err Stopped.Read) }
        ensures writes { HasCause (O.faults out.old) (O.faults out.new) (result ≡ Err Stopped.Write) }
        ensures input { S.name source.new ≡ S.name source.old }
        ensures output { O.name out.new ≡ O.name out.old }
    {
        if !self.converter.begin(&mut self.gatherer, out) {
            return Err(Stopped::Write);
        }
        self.convert_to_end(source, out)
    }

    /// Converts a file from its front: each record before the first that is refused, by the file or by the converter, and
    /// where there is none the end. It gives the converter back, and how the records ended.
    ///
    /// What is written is gathered, and written where the next piece doesn't fit and at last. After a failed read that is
    /// tried too, and the fault stays. Nothing is read once a write has failed, or memory was wanting.
    ///
    /// `Read` exactly where the source's count of faults rose, and `Write` exactly where the sink's did, but for the last
    /// write behind a failed read. `Memory` only where the converter's `may_want` is true: what is written is a prefix of
    /// what is made of the file, up to and with what the converter's `wants` tells of the place where memory was wanting.
    pub fn convert<S: Source, O: Sink>(
        mut self,
        source: &mut S,
        out: &mut O,
    ) -> (C, Result<Ending<C::Kind>, Stopped>)
        requires calls { C.calls self.converter ≡ 0 }
        requires has { C.has self.converter [] }
        requires none { gathered self.gatherer ≡ [] }
        requires empty { IfSome (O.written out.old) (λ bytes. bytes ≡ []) }
        requires fresh { S.faults source.old ≡ 0 }
        requires sound { O.faults out.old ≡ 0 }
        ensures converts { (bytes : List ℕ) → S.left source.old ≡ Some bytes → Converts C.grammar C.Kind (C.rule self.converter) (C.ended result.0) result.1 bytes (S.left source.new) (O.written out.new) (O.faults out.new) }
        ensures wants { result.1 ≡ Err Stopped.Memory → (C.may_want ≡ true)
            × ((bytes : List ℕ) → S.left source.old ≡ Some bytes → IsWanting C.grammar C.Kind (C.rule self.converter) C.wants bytes (O.written out.new)) }
        ensures reads { HasCause 0 (S.faults source.new) (result.1 ≡ Err Stopped.Read) }
        ensures writes { HasCauseBeside ((result.1 ≡ Err Stopped.Read) × (0 < O.faults out.new)) 0 (O.faults out.new) (result.1 ≡ Err Stopped.Write) }
        ensures input { S.name source.new ≡ S.name source.old }
        ensures output { O.name out.new ≡ O.name out.old }
    {
        let outcome = self.convert_all(source, out);
        let settled = settle(&mut self.gatherer, outcome, out);
        let Conversion {
            converter,
            gatherer: _,
            room: _,
        } = self;
        (converter, settled)
    }
}
