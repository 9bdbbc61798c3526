//! A sink of bytes.

ghost use Rattle.std.specs.Prelude.{◌≡◌, true, false, Option, List, ℕ};
ghost use Rattle.tesla_desk.specs.Faults.{HasCause};
ghost use Rattle.tesla_desk.specs.Outside.{Writes, Stalls, AppendsPrefix, with_bytes};

/// What one write answers.
#[derive(Clone, Copy, Debug, PartialEq, Eq)]
pub enum WriteStep {
    /// This many bytes of the front of the piece were appended.
    Took(usize),
    /// The write failed, and nothing was appended.
    Failed,
}

/// Bytes that are written one after another.
pub trait Sink {
    /// The bytes that were written; `None` where the sink does not tell them. One that does not tell
    /// stays so.
    ghost written: { Self → Option (List ℕ) };

    /// How often a write failed or took nothing of a piece that was not empty. The count stands still
    /// at 2^64 - 1.
    ghost faults: { Self → ℕ };

    /// The name that the sink was opened under.
    ghost name: { Self → List ℕ };

    /// Appends a prefix of the piece. `Failed`, and `Took(0)` of a piece that is not empty, are answered
    /// exactly where the count of faults rose.
    fn write(&mut self, piece: &[u8]) -> WriteStep
        ensures step { Writes (written self.old) (written self.new) piece.now result }
        ensures cause { HasCause (faults self.old) (faults self.new) (Stalls piece.now result) }
        ensures name { name self.new ≡ name self.old };
}

/// Writes the whole piece, in as many writes as it takes. It takes no memory.
///
/// True: the piece was appended, and the sink's count of faults is as before. False: a prefix of it was
/// appended, and the count rose, since a write failed or took nothing; nothing is written after that.
#[tactic(auto, using(crate::proofs::Told::appends_more, crate::proofs::Told::appends_none))]
pub fn write_all<S: Sink>(sink: &mut S, piece: &[u8]) -> bool
    ensures all { result ≡ true → S.written sink.new ≡ with_bytes (S.written sink.old) piece.now }
    ensures prefix { AppendsPrefix (S.written sink.old) (S.written sink.new) piece.now }
    ensures cause { HasCause (S.faults sink.old) (S.faults sink.new) (result ≡ false) }
    ensures name { S.name sink.new ≡ S.name sink.old }
{
    let mut done = 0;
    while done < piece.len() {
        let WriteStep::Took(count) = sink.write(&piece[done..]) else {
            return false;
        };
        if count == 0 {
            return false;
        }
        done += count;
    }
    true
}
