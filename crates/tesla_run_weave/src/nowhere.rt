//! A sink for a conversion that writes nothing.

ghost use Rattle.std.specs.Prelude.{None, []};

use tesla_desk::{Sink, WriteStep};

/// A sink that drops what is written to it, and never fails. A conversion that adds nothing writes nothing to it.
#[derive(Drop)]
pub struct Nowhere;

impl Sink for Nowhere {
    ghost written = { λ _. None };

    ghost faults = { λ _. 0 };

    ghost name = { λ _. [] };

    fn write(&mut self, piece: &[u8]) -> WriteStep {
        WriteStep::Took(piece.len())
    }
}
