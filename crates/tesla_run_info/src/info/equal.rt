//! Setups in which two chains have the same commitment.

ghost use Rattle.std.specs.Prelude.{◌≡◌, IfErr, IfOk, None};
ghost use Rattle.tesla_commit.specs.Equal.{first_equal};
ghost use Rattle.tesla_front.specs.OutcomeView.{stop_view};
ghost use Rattle.tesla_run_info.specs.info.Rows.{RefusesEqual, first_row};

use tesla_base::Version;
use tesla_commit::{Setup, first_equal};
use tesla_front::{Stop, refused};

/// Whether no two commitments of a setup are equal. `Refused` with status 2 and the line of the first chain whose
/// commitment a chain before has, `EqualCommitments`.
pub fn unequal(setup: &Setup) -> Result<(), Stop>
    ensures none { IfOk result (λ _. first_equal setup.now.rows ≡ None) }
    ensures refused { IfErr result (λ stop. RefusesEqual setup.now (stop_view stop)) }
{
    match first_equal(setup) {
        None => Ok(()),
        Some(chain) => {
            let line = first_row(setup.format()) + u64::from(chain);
            Err(Stop::Refused(refused(2, "setup", line, "EqualCommitments")))
        }
    }
}

// The line of a setup's text that has its first chain.
fn first_row(version: Version) -> u64
    ensures { result ≡ first_row version }
{
    match version {
        Version::One => 6,
        Version::Two => 7,
    }
}
