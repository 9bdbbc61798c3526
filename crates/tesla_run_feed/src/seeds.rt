//! The seeds that a feed tells the keys of.

ghost use Rattle.std.specs.Prelude.{◌≡◌, length, IfErr, IfOk};
ghost use Rattle.tesla_front.specs.OutcomeView.{stop_view};
ghost use Rattle.tesla_run_send.specs.Sender.{stream_in};
ghost use Rattle.tesla_seeds.specs.Weak.{AreSound};
ghost use Rattle.tesla_run_feed.specs.Steps.{IsWeak, ReadsNoSound, ReadsSound};

use std::alloc::Global;
use tesla_base::Kind;
use tesla_desk::Environment;
use tesla_front::{Stop, refused};
use tesla_run_send::{SeededSetup, read_seeded};
use tesla_seeds::{Seeds, first_weak};

/// Reads the setup under SETUP and a seed for each of its chains under SECRET, which is opened after SETUP was judged.
///
/// `Refused` with the first refused line of SETUP or of SECRET, or with the line of the first seed that is all zeros or
/// that a chain before has too: with the keys that the faster of two equal chains tells, anybody could forge on the other.
/// `Failed` with `Read` or `Open` exactly where the count of that rose, and with `NoMemory`.
pub fn read_sound<D: Environment>(
    alloc: Global,
    setup: &str,
    secret: &str,
    desk: &mut D,
) -> Result<SeededSetup, Stop>
    ensures read { IfOk result (λ seeded. ReadsSound setup.now secret.now (stream_in seeded) (D.told desk.old) (D.told desk.new)) }
    ensures count { IfOk result (λ seeded. length seeded.seeds ≡ length seeded.setup.rows) }
    ensures refused { IfErr result (λ stop. ReadsNoSound setup.now secret.now (stop_view stop) (D.told desk.old) (D.told desk.new)) }
{
    let seeded = read_seeded(alloc, setup, secret, desk)?;
    match judge_seeds(&seeded.seeds) {
        Ok(()) => Ok(seeded),
        Err(stop) => Err(stop),
    }
}

// Whether seeds are sound. `Refused` with the line of the first that isn't.
fn judge_seeds(seeds: &Seeds) -> Result<(), Stop>
    ensures sound { IfOk result (λ _. AreSound seeds.now) }
    ensures refused { IfErr result (λ stop. IsWeak seeds.now (stop_view stop)) }
{
    match first_weak(seeds) {
        Some((chain, kind)) => {
            let line = u64::from(chain) + 2;
            Err(Stop::Refused(refused(3, "seeds", line, kind.name())))
        }
        None => Ok(()),
    }
}
