//! What a run of words comes to.

ghost use Rattle.std.specs.Prelude.{◌≡◌, None};
ghost use Rattle.tesla_front.specs.OutcomeView.{result_view, outcome_view, status_of};

use crate::{Fault, Lines, Refusal, Stop};

/// What a run of words comes to.
#[derive(Debug, Drop)]
pub enum Outcome {
    /// The input was read to its end, and all output is written. These lines are printed.
    Done(Lines),
    /// The words are no form of a command.
    Usage,
    /// An input is refused. What stands before was done.
    Refused(Refusal),
    /// Something went wrong outside.
    Failed(Fault),
}

/// What a command answers as an outcome.
pub fn outcome_of(end: Result<Lines, Stop>) -> Outcome
    ensures { outcome_view result ≡ result_view end }
{
    match end {
        Ok(lines) => Outcome::Done(lines),
        Err(Stop::Refused(refusal)) => Outcome::Refused(refusal),
        Err(Stop::Failed(fault)) => Outcome::Failed(fault),
    }
}

impl Outcome {
    /// The status that a program ends with.
    pub fn status(&self) -> u8
        ensures { result ≡ status_of (outcome_view self.now) }
    {
        match self {
            Outcome::Done(_) => 0,
            Outcome::Usage => 1,
            Outcome::Refused(refusal) => refusal.status,
            Outcome::Failed(fault) => fault.status(),
        }
    }
}

/// What a run of a live command comes to, and the history that it leaves, where there is one.
#[derive(Drop)]
pub struct LiveRun<T> {
    pub outcome: Outcome,
    pub last: Option<T>,
}

/// A run that leaves no history.
pub fn without_history<T>(outcome: Outcome) -> LiveRun<T>
    ensures outcome { result.outcome ≡ outcome }
    ensures last { result.last ≡ None }
{
    LiveRun {
        outcome,
        last: None,
    }
}
