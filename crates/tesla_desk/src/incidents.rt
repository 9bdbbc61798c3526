//! What the system did that no answer tells.

ghost use Rattle.std.specs.Prelude.{◌≡◌};

use crate::Environment;

/// Counts of what the system did that no call of a desk answers. Nothing is claimed of them.
pub trait Incidents {
    /// How often a clock gave another reading than the system's, by the rule of the safe clock.
    fn held(&self) -> u64;

    /// How many datagrams the system refused to send that count as sent, since they are lost as on the way.
    fn unsent(&self) -> u64;

    /// How many sinks of records failed, whether or not they are closed yet.
    fn failed_sinks(&self) -> u64;
}

/// No count of anything.
#[derive(Drop)]
pub struct NoIncidents;

impl Incidents for NoIncidents {
    fn held(&self) -> u64 {
        0
    }

    fn unsent(&self) -> u64 {
        0
    }

    fn failed_sinks(&self) -> u64 {
        0
    }
}

/// An environment that tells how often the system did what no answer tells.
pub trait Observed: Environment {
    type Events: Incidents + Send + Drop;

    /// The counts of this run, as they stand whenever they are asked for. It takes no memory.
    fn incidents(&mut self) -> Self::Events
        ensures desk { Self.told self.new ≡ Self.told self.old };
}
