//! The entries of a file, listed one after another.

ghost use Rattle.std.specs.Prelude.{◌≡◌, ◌+◌, ◌++◌, ℕ, None, Some, true, false};
ghost use Rattle.tesla_capture.specs.Gathering.{Gathers, gathered};
ghost use Rattle.tesla_desk.specs.Faults.{HasCause};
ghost use Rattle.tesla_desk.specs.Outside.{AppendsPrefix};
ghost use Rattle.tesla_records.specs.Steps.{ahead};
ghost use Rattle.tesla_trace.specs.Entries.{IsEntry, entry_in};
ghost use Rattle.tesla_run_audit.specs.show.Lines.{entry_line};
ghost use Rattle.tesla_run_audit.specs.show.Steps.{GoesUp, Lists, ListsOne, bad_head, is_headless};

use crate::show::lines::line_of;
use crate::show::reader::EntryReader;
use tesla_audit::TraceStep;
use tesla_capture::Gatherer;
use tesla_desk::{Sink, Source};
use tesla_trace::{EntryBuffer, TraceKind};

/// What listing the entries of a file comes to.
#[derive(Clone, Copy, Debug, Drop)]
pub enum Listed {
    /// The file ended.
    End,
    /// The place of an entry, or of the head, is refused.
    Refused { place: u64, kind: TraceKind },
    /// A read failed: the source's count of faults rose.
    ReadFault,
    /// A write failed: the sink's did.
    WriteFault,
}

// Whether a place is refused for the head.
fn is_bad_head(kind: TraceKind) -> bool
    ensures { result ≡ bad_head kind }
{
    match kind {
        TraceKind::BadHead => true,
        TraceKind::BadKind => false,
        TraceKind::Truncated => false,
        TraceKind::TooLong => false,
        TraceKind::TooLarge => false,
        TraceKind::BadCode => false,
    }
}

/// Whether the file was refused for its head.
pub fn is_headless(listed: Listed) -> bool
    ensures { result ≡ is_headless listed }
{
    match listed {
        Listed::Refused { place: _, kind } => is_bad_head(kind),
        Listed::End => false,
        Listed::ReadFault => false,
        Listed::WriteFault => false,
    }
}

// Puts the line of an entry behind what is gathered. False: a write failed.
fn put_line<O: Sink>(
    gatherer: &mut Gatherer,
    console: &mut O,
    number: u128,
    entry: &EntryBuffer,
) -> bool
    requires { IsEntry entry.now }
    ensures all { result ≡ true → Gathers (O.written console.old) (O.written console.new) (gathered gatherer.new) (gathered gatherer.old ++ entry_line number (entry_in entry.now)) }
    ensures prefix { result ≡ false → AppendsPrefix (O.written console.old) (O.written console.new) (gathered gatherer.old) }
    ensures cause { HasCause (O.faults console.old) (O.faults console.new) (result ≡ false) }
    ensures name { O.name console.new ≡ O.name console.old }
{
    let line = line_of(number, entry);
    gatherer.put_parts(console, line.as_str().as_bytes(), &[], &[])
}

// The number of the entry that stands behind so many.
fn number_of(first: u64, count: u64) -> u128
    ensures { result ≡ first + count }
{
    u128::from(first) + u128::from(count)
}

// Lists the next entry, behind so many. `None`: it was listed, and there may be more.
fn list_one<R: EntryReader, S: Source, O: Sink>(
    reader: &mut R,
    count: u64,
    entry: &mut EntryBuffer,
    source: &mut S,
    gatherer: &mut Gatherer,
    console: &mut O,
) -> Option<Listed>
    requires going { (R.progress reader.old).going ≡ true }
    ensures lists { ListsOne R.grammar R.line R.number R.kind_of result (R.progress reader.old) (R.progress reader.new) count (S.left source.old) (S.left source.new) (O.written console.old) (O.written console.new) (gathered gatherer.old) (gathered gatherer.new) }
    ensures rises { result ≡ None → GoesUp (R.progress reader.old) (R.progress reader.new) }
    ensures headless { (place : ℕ) → result ≡ Some (Listed.Refused place TraceKind.BadHead) → (R.progress reader.new).place ≡ 0 }
    ensures reads { HasCause (S.faults source.old) (S.faults source.new) (result ≡ Some Listed.ReadFault) }
    ensures writes { HasCause (O.faults console.old) (O.faults console.new) (result ≡ Some Listed.WriteFault) }
    ensures input { S.name source.new ≡ S.name source.old }
    ensures output { O.name console.new ≡ O.name console.old }
{
    match reader.next(source, entry) {
        TraceStep::Entry => {
            let number = number_of(reader.first(), count);
            if put_line(gatherer, console, number, entry) {
                None
            } else {
                Some(Listed::WriteFault)
            }
        }
        TraceStep::End => Some(Listed::End),
        TraceStep::Refused { place, kind } => Some(Listed::Refused { place, kind }),
        TraceStep::ReadFault => Some(Listed::ReadFault),
    }
}

/// Lists the entries of a file of which nothing was taken yet: each before its end or the first refused place. The lines
/// are put behind what is gathered. Nothing is read once a read or a write has failed. It takes no memory.
pub fn list_entries<R: EntryReader, S: Source, O: Sink>(
    reader: &mut R,
    source: &mut S,
    gatherer: &mut Gatherer,
    console: &mut O,
) -> Listed
    requires going { (R.progress reader.old).going ≡ true }
    requires place { (R.progress reader.old).place ≡ 0 }
    requires head { (R.progress reader.old).head ≡ None }
    ensures lists { Lists R.grammar R.line R.number R.kind_of result (ahead (R.progress reader.old) (S.left source.old)) (ahead (R.progress reader.new) (S.left source.new)) (S.left source.new) (O.written console.old) (O.written console.new) (gathered gatherer.old) (gathered gatherer.new) }
    ensures headless { (place : ℕ) → result ≡ Listed.Refused place TraceKind.BadHead → (R.progress reader.new).place ≡ 0 }
    ensures reads { HasCause (S.faults source.old) (S.faults source.new) (result ≡ Listed.ReadFault) }
    ensures writes { HasCause (O.faults console.old) (O.faults console.new) (result ≡ Listed.WriteFault) }
    ensures input { S.name source.new ≡ S.name source.old }
    ensures output { O.name console.new ≡ O.name console.old }
{
    let mut entry = EntryBuffer::new();
    let mut count = 0;
    loop {
        match list_one(reader, count, &mut entry, source, gatherer, console) {
            Some(listed) => return listed,
            None => count += 1,
        }
    }
}
