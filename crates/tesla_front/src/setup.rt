//! The setup that a command trusts.

ghost use Rattle.std.specs.Prelude.{◌≡◌, ℕ, List, [], ◌∷◌, IfOk, IfErr};
ghost use Rattle.tesla_desk.specs.Outside.{OfSource};
ghost use Rattle.tesla_front.specs.OutcomeView.{stop_view};
ghost use Rattle.tesla_front.specs.Openings.{Opens, OpensSome};
ghost use Rattle.tesla_front.specs.Refusal.{StopCauses};
ghost use Rattle.tesla_front.specs.Setup.{IsSetupIn, IsSetupText, IsNoSetup, IsNoSetupText};

use crate::{Fault, Stop, read_file, refused};
use std::alloc::Global;
use tesla_base::Kind;
use tesla_commit::{Setup, SetupRefusal, read_setup};
use tesla_desk::Environment;

/// How many bytes of a setup or of seeds are asked for: one more than they have at most.
pub const MOST: usize = 4097;

// The setup that a text spells.
fn setup_of(alloc: Global, text: &[u8]) -> Result<Setup, Stop>
    ensures found { IfOk result (λ setup. IsSetupText text.now setup) }
    ensures refused { IfErr result (λ stop. IsNoSetupText text.now (stop_view stop)) }
{
    match read_setup(alloc, text) {
        Ok(setup) => Ok(setup),
        Err(SetupRefusal::At { line, kind }) => {
            Err(Stop::Refused(refused(2, "setup", u64::from(line), kind.name())))
        }
        Err(SetupRefusal::NoMemory) => Err(Stop::Failed(Fault::NoMemory)),
    }
}

/// The setup under a name. The file is opened, read and closed, and then judged; of a longer file the first
/// 4,097 bytes are read, which tell that it is too long.
///
/// `Refused` with the first refused line where the file's text is no setup, and `Failed` as `read_file` fails.
pub fn setup_under<D: Environment>(alloc: Global, name: &str, desk: &mut D) -> Result<Setup, Stop>
    ensures found { IfOk result (λ setup. IsSetupIn ((D.told desk.old).page name.now) setup) }
    ensures refused { IfErr result (λ stop. IsNoSetup ((D.told desk.old).page name.now) (stop_view stop)) }
    ensures opened { IfOk result (λ _. Opens (OfSource name.now ∷ []) 1 (D.told desk.old) (D.told desk.new)) }
    ensures opens { OpensSome (OfSource name.now ∷ []) (D.told desk.old) (D.told desk.new) }
    ensures pages { (n : List ℕ) → (D.told desk.new).page n ≡ (D.told desk.old).page n }
    ensures live { (D.told desk.new).live ≡ (D.told desk.old).live }
    ensures causes { StopCauses result (D.told desk.old).faults (D.told desk.new).faults }
{
    match read_file(alloc, name, MOST, desk) {
        Ok(text) => setup_of(alloc, text.as_slice()),
        Err(fault) => Err(Stop::Failed(fault)),
    }
}
