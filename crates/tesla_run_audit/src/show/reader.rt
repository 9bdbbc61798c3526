//! The readers of traces and of tails, as readers of files of entries.

ghost use Rattle.std.specs.Prelude.{◌≡◌, ◌≤◌, ℕ, List, Option, Some, true};
ghost use Rattle.tesla_desk.specs.Faults.{HasCause};
ghost use Rattle.tesla_receiver.specs.Entries.{Entry};
ghost use Rattle.tesla_records.specs.Grammar.{Grammar, IsGrammar, limit};
ghost use Rattle.tesla_records.specs.Found.{AwaitsAt};
ghost use Rattle.tesla_records.specs.Records.{refusal_by};
ghost use Rattle.tesla_records.specs.Steps.{Progress, pending, ahead, Gives, Moves, MovesHead, ReadsHead, goes_on};
ghost use Rattle.tesla_records.specs.declared.refusal.Refusal.{Refusal};
ghost use Rattle.tesla_trace.specs.Entries.{IsEntry, entry_in};
ghost use Rattle.tesla_trace.specs.declared.kind.EntryFault.{EntryFault};
ghost use Rattle.tesla_trace.specs.declared.kind.TraceKind.{TraceKind};
ghost use Rattle.tesla_audit.specs.Steps.{records_step, refusal_of};
ghost use Rattle.tesla_run_audit.specs.show.Lines.{entry_line};

use tesla_audit::{TailReader, TraceReader, TraceStep};
use tesla_desk::Source;
use tesla_trace::EntryBuffer;

/// A reader of a file of entries, as `TraceReader` and `TailReader` are.
pub(crate) trait EntryReader {
    /// The grammar of the file.
    ghost grammar: { Grammar };

    /// The entries and their faults as the grammar has them.
    ghost record_of: { Entry → grammar.Record };

    ghost fault_of: { EntryFault → grammar.Kind };

    /// The number of the first entry, by what the head tells, and the line of one, by its number.
    ghost number: { Option grammar.Head → ℕ };

    ghost line: { ℕ → grammar.Record → List ℕ };

    ghost kind_of: { Refusal grammar.Kind → TraceKind };

    /// What was taken of the file.
    ghost progress: { Self → Progress grammar.Head };

    /// The number of the first entry; 0 until the head was read.
    fn first(&self) -> u64
        ensures { result ≡ number (progress self.now).head };

    /// The next entry, which the place then holds, or why there is none.
    fn next<S: Source>(&mut self, source: &mut S, entry: &mut EntryBuffer) -> TraceStep
        requires going { (progress self.old).going ≡ true }
        ensures gives { (rest : List ℕ) → ahead (progress self.old) (S.left source.old) ≡ Some rest → Gives grammar fault_of (λ _. record_of (entry_in entry.new)) (records_step result) (progress self.old).place rest (progress self.new).place (ahead (progress self.new) (S.left source.new)) }
        ensures moves { Moves grammar (λ _. record_of (entry_in entry.new)) (records_step result) (progress self.old).place (progress self.new).place }
        ensures heads { MovesHead grammar (progress self.old).place (progress self.old).head (progress self.new).place (progress self.new).head }
        ensures head { (rest : List ℕ) → ahead (progress self.old) (S.left source.old) ≡ Some rest → ReadsHead grammar (progress self.old).place rest (progress self.new).place (progress self.new).head }
        ensures entry { result ≡ TraceStep.Entry → IsEntry entry.new }
        ensures limited { (progress self.new).place ≤ limit }
        ensures goes { (progress self.new).going ≡ goes_on (records_step result) }
        ensures cut { result ≡ TraceStep.ReadFault → AwaitsAt grammar (progress self.new).place (pending (progress self.new)) }
        ensures cause { HasCause (S.faults source.old) (S.faults source.new) (result ≡ TraceStep.ReadFault) }
        ensures name { S.name source.new ≡ S.name source.old };

    /// The laws of its grammar.
    ghost is: { IsGrammar grammar };

    ghost lines: { (n : ℕ) (it : Entry) → line n (record_of it) ≡ entry_line n it };

    ghost kinds: { (kind : TraceKind) → kind_of (refusal_by fault_of (refusal_of kind)) ≡ kind };
}

impl EntryReader for TraceReader {
    ghost use Rattle.std.specs.Prelude.{◌≡◌, refl};
    ghost use Rattle.tesla_trace.specs.Grammar.{trace};
    ghost use Rattle.tesla_trace.proofs.TraceIs.{trace_is};
    ghost use Rattle.tesla_audit.specs.Steps.{kind_of as trace_kind};
    ghost use Rattle.tesla_run_audit.specs.show.Lines.{entry_line};
    ghost use Rattle.tesla_run_audit.specs.show.Show.{trace_first};
    ghost use Rattle.tesla_run_audit.specs.show.Kinds.{kind_again};

    ghost grammar = { trace };

    ghost record_of = { λ entry. entry };

    ghost fault_of = { λ fault. fault };

    ghost number = { trace_first };

    ghost line = { entry_line };

    ghost kind_of = { trace_kind };

    ghost progress = { λ reader. reader };

    ghost is = { trace_is };

    ghost lines = { λ n it. refl };

    ghost kinds = { kind_again };

    fn first(&self) -> u64 {
        0
    }

    fn next<S: Source>(&mut self, source: &mut S, entry: &mut EntryBuffer) -> TraceStep {
        TraceReader::next(self, source, entry)
    }
}

impl EntryReader for TailReader {
    ghost use Rattle.std.specs.Prelude.{◌≡◌, refl};
    ghost use Rattle.tesla_trace.specs.Grammar.{tail};
    ghost use Rattle.tesla_trace.proofs.TraceIs.{tail_is};
    ghost use Rattle.tesla_audit.specs.Steps.{kind_of as trace_kind};
    ghost use Rattle.tesla_run_audit.specs.show.Lines.{entry_line};
    ghost use Rattle.tesla_run_audit.specs.show.Show.{tail_first};
    ghost use Rattle.tesla_run_audit.specs.show.Kinds.{kind_again};

    ghost grammar = { tail };

    ghost record_of = { λ entry. entry };

    ghost fault_of = { λ fault. fault };

    ghost number = { tail_first };

    ghost line = { entry_line };

    ghost kind_of = { trace_kind };

    ghost progress = { λ reader. reader };

    ghost is = { tail_is };

    ghost lines = { λ n it. refl };

    ghost kinds = { kind_again };

    fn first(&self) -> u64 {
        match TailReader::head(self) {
            Some(first) => first,
            None => 0,
        }
    }

    fn next<S: Source>(&mut self, source: &mut S, entry: &mut EntryBuffer) -> TraceStep {
        TailReader::next(self, source, entry)
    }
}
