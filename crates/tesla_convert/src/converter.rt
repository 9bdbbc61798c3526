//! What is made of the records of a file.

ghost use Rattle.std.specs.Prelude.{◌≡◌, ◌+◌, ◌≤◌, ◌++◌, [], List, ℕ, Bool, true, false, Option, Some, None, Err, IfOk, IfErr, drop, length};
ghost use Rattle.tesla_capture.specs.Gathering.{gathered, Gathers};
ghost use Rattle.tesla_capture.specs.Grammar.{Grammar, limit};
ghost use Rattle.tesla_capture.specs.Formats.{IsGrammar};
ghost use Rattle.tesla_capture.specs.Found.{AwaitsAt};
ghost use Rattle.tesla_capture.specs.Steps.{pending, ahead, Gives, Moves, goes_on};
ghost use Rattle.tesla_desk.specs.Faults.{HasCause};
ghost use Rattle.tesla_desk.specs.Outside.{AppendsPrefix, with_bytes};
ghost use Rattle.tesla_convert.specs.Rule.{Rule};
ghost use Rattle.tesla_convert.specs.Records.{Answers, IsWithin, record_of};

use tesla_base::MOST_DATAGRAM;
use tesla_capture::{Format, Gatherer, RecordKind, RecordReader, RecordStep};
use tesla_desk::{Sink, Source};

/// A record that was taken from a file.
#[derive(Clone, Copy, Debug)]
pub enum TakenRecord<'a> {
    /// A record of kind 1: its reading, in microseconds, and the bytes that it carries.
    Carrying { reading: u64, bytes: &'a [u8] },
    /// A record of kind 2: its reading, in microseconds, 0 where it has none.
    Bare { reading: u64 },
}

/// What came of a record.
#[derive(Clone, Copy, Debug, PartialEq, Eq)]
pub enum Converted<K> {
    /// What is written of it was put behind what is gathered.
    Whole,
    /// It is refused, and nothing has changed.
    Refused(K),
    /// A write failed.
    WriteFault,
    /// Memory was wanting. What is written of the record, and all that was gathered before, were written.
    NoMemory,
}

/// What stops a converter at the end of a file.
#[derive(Clone, Copy, Debug, PartialEq, Eq)]
pub enum Halt {
    /// A write failed.
    WriteFault,
    /// Memory was wanting. Nothing is gathered any more.
    NoMemory,
}

/// What is made of the records of a file, one after another: which format they have, and what is written of each.
///
/// What is written goes through a gatherer. No call is made once a write to the output has failed.
pub trait Converter {
    /// The format of the file.
    type Input: Format;

    /// Why a record is refused.
    type Kind: Copy;

    /// The grammar of the format.
    ghost grammar: { Grammar };

    /// What is written of each record after those before it, and which are refused.
    ghost rule: { Self → Rule grammar Self.Kind };

    /// It was given these records, in this order, and no others.
    ghost has: { Self → List grammar.Record → Type 0 };

    /// It was given the end of the file behind these records.
    ghost ended: { Self → List grammar.Record → Type 0 };

    /// Whether memory may be wanting once records were converted.
    ghost may_want: { Bool };

    /// Where memory is wanting behind these records, at the next one or at the end, this is written of that.
    ghost wants: { List grammar.Record → Option grammar.Record → List ℕ → Type 0 };

    /// How many calls it has had at most.
    ghost calls: { Self → ℕ };

    /// The next record of the file, as [`RecordReader::next_record`] gives it.
    fn next<S: Source>(
        reader: &mut RecordReader<Self::Input>,
        source: &mut S,
        room: &mut [u8; MOST_DATAGRAM],
    ) -> RecordStep
        requires { reader.old.going ≡ true }
        ensures gives { (rest : List ℕ) → ahead reader.old (S.left source.old) ≡ Some rest → Gives grammar result reader.old.place rest reader.new.place (ahead reader.new (S.left source.new)) room.new }
        ensures moves { Moves grammar result reader.old.place reader.new.place }
        ensures limited { reader.new.place ≤ limit }
        ensures goes { reader.new.going ≡ goes_on result }
        ensures cut { result ≡ RecordStep.ReadFault → AwaitsAt grammar reader.new.place (pending reader.new) }
        ensures cause { HasCause (S.faults source.old) (S.faults source.new) (result ≡ RecordStep.ReadFault) }
        ensures name { S.name source.new ≡ S.name source.old };

    /// What a refused place of the file itself is called.
    fn kind_of(&self, kind: RecordKind) -> Self::Kind
        ensures { result ≡ (rule self.now).kind_of kind };

    /// Puts what stands before all records behind what is gathered. False: a write failed.
    fn begin<O: Sink>(&mut self, gatherer: &mut Gatherer, out: &mut O) -> bool
        requires { O.faults out.old ≡ 0 }
        ensures has { (rs : List grammar.Record) → has self.old rs → has self.new rs }
        ensures rule { rule self.new ≡ rule self.old }
        ensures calls { calls self.new ≡ calls self.old }
        ensures writes { result ≡ true → Gathers (O.written out.old) (O.written out.new) (gathered gatherer.new) (gathered gatherer.old ++ (rule self.old).begins) }
        ensures halts { result ≡ false → AppendsPrefix (O.written out.old) (O.written out.new) (gathered gatherer.old ++ (rule self.old).begins) }
        ensures cause { HasCause (O.faults out.old) (O.faults out.new) (result ≡ false) }
        ensures name { O.name out.new ≡ O.name out.old };

    /// Takes a record. What is written of it is put behind what is gathered. `NoMemory` comes only where
    /// `may_want` is true, and then that was written, as `wants` says.
    fn convert<O: Sink>(
        &mut self,
        taken: TakenRecord<'_>,
        gatherer: &mut Gatherer,
        out: &mut O,
    ) -> Converted<Self::Kind>
        requires within { IsWithin grammar taken }
        requires calls { calls self.old ≤ limit }
        requires sound { O.faults out.old ≡ 0 }
        ensures answers { (rs : List grammar.Record) → has self.old rs →
            Answers grammar (rule self.old) (has self.new) rs (record_of grammar taken.entry) result (O.written out.old) (O.written out.new) (gathered gatherer.old) (gathered gatherer.new) }
        ensures rule { rule self.new ≡ rule self.old }
        ensures calls { calls self.new ≤ calls self.old + 1 }
        ensures wants { result ≡ Converted.NoMemory → (may_want ≡ true) × ((rs : List grammar.Record) → has self.old rs → wants rs (Some (record_of grammar taken.entry)) ((rule self.old).adds rs (record_of grammar taken.entry))) }
        ensures cause { HasCause (O.faults out.old) (O.faults out.new) (result ≡ Converted.WriteFault) }
        ensures name { O.name out.new ≡ O.name out.old };

    /// Takes the end of the file. Where it halts, a prefix of what was gathered and of what is written of the end was
    /// written. `NoMemory` comes only where `may_want` is true, and then what `wants` says was written of the end.
    fn finish<O: Sink>(&mut self, gatherer: &mut Gatherer, out: &mut O) -> Result<(), Halt>
        requires calls { calls self.old ≤ limit + 1 }
        requires sound { O.faults out.old ≡ 0 }
        ensures ended { IfOk result (λ _. (rs : List grammar.Record) → has self.old rs → ended self.new rs) }
        ensures writes { IfOk result (λ _. (rs : List grammar.Record) → has self.old rs → Gathers (O.written out.old) (O.written out.new) (gathered gatherer.new) (gathered gatherer.old ++ (rule self.old).ends rs)) }
        ensures halts { IfErr result (λ _. (rs : List grammar.Record) → has self.old rs → AppendsPrefix (O.written out.old) (O.written out.new) (gathered gatherer.old ++ (rule self.old).ends rs)) }
        ensures wants { result ≡ Err Halt.NoMemory → (may_want ≡ true) × (gathered gatherer.new ≡ [])
            × ((rs : List grammar.Record) → has self.old rs → (piece : List ℕ) × wants rs None piece × (O.written out.new ≡ with_bytes (O.written out.old) (gathered gatherer.old ++ piece))) }
        ensures cause { HasCause (O.faults out.old) (O.faults out.new) (result ≡ Err Halt.WriteFault) }
        ensures name { O.name out.new ≡ O.name out.old };

    ghost is: { IsGrammar grammar };
}
