//! An output of whole pieces.

ghost use Rattle.std.specs.Prelude.{◌≡◌, Bool, Option, List, true, false, ℕ};
ghost use Rattle.tesla_desk.specs.Faults.{HasCause};
ghost use Rattle.tesla_desk.specs.Outside.{AppendsPrefix, with_bytes};

use crate::sink::{Sink, write_all};

/// Bytes that are written in pieces, each of which may be written whole when its turn comes.
pub trait Output {
    /// The bytes that were written; `None` where the output does not tell them. One that does not tell stays so.
    ghost written: { Self → Option (List ℕ) };

    /// How often a piece was not written whole. The count stands still at 2^64 - 1.
    ghost faults: { Self → ℕ };

    /// The name that the output was opened under.
    ghost name: { Self → List ℕ };

    /// The output may write this piece.
    ghost may_write: { Self → List ℕ → Bool } = { λ _ _. true };

    /// Writes a whole piece, which it may write. It takes no memory.
    ///
    /// True: the piece was appended. False: a prefix of it was appended, and the count of faults rose.
    fn write_piece(&mut self, piece: &[u8]) -> bool
        requires permitted { may_write self.old piece.now ≡ true }
        ensures all { result ≡ true → written self.new ≡ with_bytes (written self.old) piece.now }
        ensures prefix { AppendsPrefix (written self.old) (written self.new) piece.now }
        ensures cause { HasCause (faults self.old) (faults self.new) (result ≡ false) }
        ensures name { name self.new ≡ name self.old };
}

/// A sink as an output of whole pieces. It may write any piece.
pub struct SinkOutput<S: Sink> {
    pub sink: S,
}

impl<S: Sink> Output for SinkOutput<S> {
    ghost written = { λ it. S.written it.sink };

    ghost faults = { λ it. S.faults it.sink };

    ghost name = { λ it. S.name it.sink };

    fn write_piece(&mut self, piece: &[u8]) -> bool {
        write_all(&mut self.sink, piece)
    }
}
