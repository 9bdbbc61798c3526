//! What runs beside the workers, until they have ended.

use std::sync::Wait;
use tesla_status::Ended;

/// What runs beside the workers in a thread of its own, or behind them where no thread can be made.
pub trait Beside {
    /// What a run did, of it before and afterwards.
    ghost did: { Self → Self → Type 0 };

    /// Runs until the workers have ended.
    fn run<R: Wait>(&mut self, rt: &R, ended: &Ended)
        ensures { did self.old self.new };
}
