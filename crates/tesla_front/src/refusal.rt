//! Why a command doesn't come to its end.

ghost use Rattle.std.specs.Prelude.{◌≡◌, true};
ghost use Rattle.tesla_front.specs.Fault.{is_own_status};

use crate::{Fault, Lines};

/// An input that a command refuses: the status that the program ends with, 2 for a setup, 3 for any other input that
/// isn't in its grammar or is wrong, or a status of the command's own, which is none of a fault; and the line that tells what
/// is wrong, and where.
#[derive(Debug, Drop)]
pub struct Refusal {
    pub status: u8,
    pub line: Lines,
    pub ghost own: { is_own_status status ≡ true },
}

/// Why a command doesn't come to its end.
#[derive(Debug, Drop)]
pub enum Stop {
    /// An input is refused.
    Refused(Refusal),
    /// Something went wrong outside.
    Failed(Fault),
}

impl From<Fault> for Stop {
    ghost use Rattle.std.specs.Prelude.{◌≡◌};
    ghost use Rattle.tesla_front.specs.declared.refusal.Stop.TheVariants as stops;

    ghost from_gives = { λ fault stop. stop ≡ stops.Failed fault };

    fn from(fault: Fault) -> Stop {
        Stop::Failed(fault)
    }
}

impl From<Refusal> for Stop {
    ghost use Rattle.std.specs.Prelude.{◌≡◌};
    ghost use Rattle.tesla_front.specs.declared.refusal.Stop.TheVariants as stops;

    ghost from_gives = { λ refusal stop. stop ≡ stops.Refused refusal };

    fn from(refusal: Refusal) -> Stop {
        Stop::Refused(refusal)
    }
}
