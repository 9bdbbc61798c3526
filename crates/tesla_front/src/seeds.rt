//! The seeds that a command makes key chains from.

ghost use Rattle.std.specs.Prelude.{◌≡◌, ℕ, List, [], ◌∷◌, length, IfOk, IfErr};
ghost use Rattle.tesla_desk.specs.Outside.{OfSource};
ghost use Rattle.tesla_front.specs.OutcomeView.{stop_view};
ghost use Rattle.tesla_front.specs.Openings.{Opens, OpensSome};
ghost use Rattle.tesla_front.specs.Refusal.{StopCauses};
ghost use Rattle.tesla_front.specs.Seeds.{IsSeedsIn, IsSeedsText, IsNoSeeds, IsNoSeedsText};

use crate::setup::MOST;
use crate::{Fault, Stop, read_file, refused};
use std::alloc::Global;
use tesla_base::Kind;
use tesla_desk::Environment;
use tesla_seeds::{Seeds, SeedsRefusal, read_seeds};

// The seeds that a text spells.
fn seeds_of(alloc: Global, text: &[u8], count: u8) -> Result<Seeds, Stop>
    ensures found { IfOk result (λ seeds. IsSeedsText count text.now seeds) }
    ensures count { IfOk result (λ seeds. length seeds ≡ count) }
    ensures refused { IfErr result (λ stop. IsNoSeedsText count text.now (stop_view stop)) }
{
    match read_seeds(alloc, text, count) {
        Ok(seeds) => Ok(seeds),
        Err(SeedsRefusal::At { line, kind }) => {
            Err(Stop::Refused(refused(3, "seeds", u64::from(line), kind.name())))
        }
        Err(SeedsRefusal::NoMemory) => Err(Stop::Failed(Fault::NoMemory)),
    }
}

/// The `count` seeds under a name. The file is opened, read and closed, and then judged; of a longer file the first
/// 4,097 bytes are read, which tell that it is too long. The text is overwritten before this returns.
///
/// `Refused` with the first refused line where the file's text spells other seeds or none, and `Failed` as
/// `read_file` fails. Neither tells anything of a seed.
pub fn seeds_under<D: Environment>(
    alloc: Global,
    name: &str,
    count: u8,
    desk: &mut D,
) -> Result<Seeds, Stop>
    ensures found { IfOk result (λ seeds. IsSeedsIn count ((D.told desk.old).page name.now) seeds) }
    ensures count { IfOk result (λ seeds. length seeds ≡ count) }
    ensures refused { IfErr result (λ stop. IsNoSeeds count ((D.told desk.old).page name.now) (stop_view stop)) }
    ensures opened { IfOk result (λ _. Opens (OfSource name.now ∷ []) 1 (D.told desk.old) (D.told desk.new)) }
    ensures opens { OpensSome (OfSource name.now ∷ []) (D.told desk.old) (D.told desk.new) }
    ensures pages { (n : List ℕ) → (D.told desk.new).page n ≡ (D.told desk.old).page n }
    ensures live { (D.told desk.new).live ≡ (D.told desk.old).live }
    ensures causes { StopCauses result (D.told desk.old).faults (D.told desk.new).faults }
{
    match read_file(alloc, name, MOST, desk) {
        Ok(mut text) => {
            let judged = seeds_of(alloc, text.as_slice(), count);
            text.as_mut_slice().fill(0);
            judged
        }
        Err(fault) => Err(Stop::Failed(fault)),
    }
}
