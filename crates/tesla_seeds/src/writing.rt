//! Writing the text of seeds.

ghost use Rattle.std.specs.Prelude.{◌≡◌, ◌≤◌, ◌++◌, length, IfOk, OnOk};
ghost use Rattle.tesla_seeds.specs.Text.{IsSeeds, seed_line, seeds_text};

use crate::Seeds;
use hex::encode_to_slice;
use std::alloc::{AllocError, Global};
use tesla_base::{Key, NoMemory};

/// Adds the line of a seed.
fn put_seed(out: &mut Vec<u8>, seed: &Key) -> Result<(), AllocError>
    ensures { OnOk result (out.new.items ≡ out.old.items ++ seed_line seed.now) }
{
    let mut digits = [0; 64];
    let Ok(()) = encode_to_slice(seed.0, &mut digits) else {
        unreachable!()
    };
    out.extend_from_slice(b"seed ")?;
    out.extend_from_slice(&digits)?;
    out.push(b'\n')?;
    Ok(())
}

/// The one text of seeds, which `read_seeds` reads again where they are at most 58.
#[tactic(auto, unfolding(crate::specs::Text::seeds_text))]
pub fn write_seeds(alloc: Global, seeds: &Seeds) -> Result<Vec<u8>, NoMemory>
    ensures text { IfOk result (λ text. text.items ≡ seeds_text seeds.now) }
    // What is written is the text of the seeds, as reading finds it.
    ensures spelled { length seeds.now ≤ 58 → IfOk result (λ text. IsSeeds text.items (length seeds.now) seeds.now) }
{
    let mut out = Vec::new(alloc);
    out.extend_from_slice(b"tesla-seeds 1\n")?;
    for chain in 0..seeds.count() {
        put_seed(&mut out, &seeds.get(chain))?;
    }
    Ok(out)
}
