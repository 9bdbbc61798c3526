//! The file of the counts.

ghost use Rattle.std.specs.Prelude.{◌≡◌, false, true};
ghost use Rattle.tesla_status.specs.Written.{Puts};

use tesla_desk::Output;
use tesla_front::Lines;

/// The file of the counts, and whether it failed.
pub struct Status<S: Output> {
    /// The output.
    pub sink: S,
    /// Whether a line wasn't written whole.
    pub failed: bool,
}

impl<S: Output> Status<S> {
    /// Writes a line in one piece, which the output may write, where no line before it failed. It takes no memory.
    pub fn put(&mut self, line: &Lines)
        requires allowed { self.old.failed ≡ false → S.may_write self.old.sink line.now.bytes ≡ true }
        ensures puts { Puts line.now.bytes (S.written self.old.sink) (S.written self.new.sink) (S.faults self.old.sink) (S.faults self.new.sink) self.old.failed self.new.failed }
        ensures name { S.name self.new.sink ≡ S.name self.old.sink }
    {
        if self.failed {
            return;
        }
        let written = self.sink.write_piece(line.as_str().as_bytes());
        self.failed = !written;
    }
}
