//! Seeds that are drawn from the system's random bytes.

ghost use Rattle.std.specs.Prelude.{◌≡◌, ◌+◌, ◌*◌, ◌≤◌, ℕ, List, [], ◌∷◌, length, take, drop, IfOk, IfErr};
ghost use Rattle.tesla_desk.specs.Outside.{OfSource};
ghost use Rattle.tesla_front.specs.OutcomeView.{stop_view};
ghost use Rattle.tesla_front.specs.Files.{HoldsWhere, IsRefusedIn};
ghost use Rattle.tesla_front.specs.Openings.{Opens, OpensSome};
ghost use Rattle.tesla_front.specs.Refusal.{StopCauses};
ghost use Rattle.tesla_seeds.specs.Text.{IsKey};
ghost use Rattle.tesla_seeds.specs.Weak.{AreSound};
ghost use Rattle.tesla_run_info.specs.seeds.Arguments.{random};
ghost use Rattle.tesla_run_info.specs.seeds.Drawn.{AreDrawn, IsNoDraw};

use std::alloc::{AllocError, Global};
use tesla_base::{KEY_BYTES, Key, Kind};
use tesla_desk::Environment;
use tesla_front::{Fault, Stop, read_file, refused};
use tesla_seeds::{Seeds, first_weak};

/// The name of the source of random bytes.
pub const RANDOM: &str = "/dev/urandom";

// The key that begins at a place.
fn key_at(bytes: &[u8], place: usize) -> Key
    requires { place + 32 ≤ length bytes.now }
    ensures value { result.0 ≡ take 32 (drop place bytes.now) }
    ensures whole { IsKey result }
{
    let mut key = [0; KEY_BYTES];
    key.copy_from_slice(&bytes[place..place + KEY_BYTES]);
    Key(key)
}

// The keys that the first bytes are, so many, one behind another.
fn keys_of(alloc: Global, bytes: &[u8], count: u8) -> Result<Vec<Key>, AllocError>
    requires { 32 * count ≤ length bytes.now }
    ensures { IfOk result (λ keys. AreDrawn count bytes.now keys.items) }
{
    let mut keys = Vec::new(alloc);
    for chain in 0..count {
        let place = KEY_BYTES * chain as usize;
        keys.push(key_at(bytes, place))?;
    }
    Ok(keys)
}

// The seeds that the first bytes are, or why they give none.
fn seeds_of(alloc: Global, bytes: &[u8], count: u8) -> Result<Seeds, Stop>
    requires { count ≤ 8 }
    ensures found { IfOk result (λ seeds. AreDrawn count bytes.now seeds) }
    ensures sound { IfOk result (λ seeds. AreSound seeds) }
    ensures refused { IfErr result (λ stop. IsNoDraw count bytes.now (stop_view stop)) }
{
    if bytes.len() < KEY_BYTES * count as usize {
        let place = bytes.len() as u64;
        return Err(Stop::Refused(refused(3, "random", place, "Truncated")));
    }
    let Ok(keys) = keys_of(alloc, bytes, count) else {
        return Err(Stop::Failed(Fault::NoMemory));
    };
    let seeds = Seeds::assemble(keys);
    match first_weak(&seeds) {
        Some((chain, kind)) => {
            let line = 2 + u64::from(chain);
            Err(Stop::Refused(refused(3, "seeds", line, kind.name())))
        }
        None => Ok(seeds),
    }
}

/// So many seeds, which one behind another are the first bytes of the source. The source is opened, read and closed, and
/// no byte more is asked for.
///
/// `Refused` where it ended before, or a seed gives its chain no safety, and `Failed` as `read_file` fails. Neither tells
/// anything of a seed.
pub fn draw<D: Environment>(alloc: Global, count: u8, desk: &mut D) -> Result<Seeds, Stop>
    requires { count ≤ 8 }
    ensures found { IfOk result (λ seeds. HoldsWhere ((D.told desk.old).page random) (λ bytes. AreDrawn count bytes seeds)) }
    ensures count { IfOk result (λ seeds. length seeds ≡ count) }
    ensures sound { IfOk result (λ seeds. AreSound seeds) }
    ensures refused { IfErr result (λ stop. IsRefusedIn ((D.told desk.old).page random) (IsNoDraw count) (stop_view stop)) }
    ensures opened { IfOk result (λ _. Opens (OfSource random ∷ []) 1 (D.told desk.old) (D.told desk.new)) }
    ensures opens { OpensSome (OfSource random ∷ []) (D.told desk.old) (D.told desk.new) }
    ensures pages { (n : List ℕ) → (D.told desk.new).page n ≡ (D.told desk.old).page n }
    ensures live { (D.told desk.new).live ≡ (D.told desk.old).live }
    ensures causes { StopCauses result (D.told desk.old).faults (D.told desk.new).faults }
{
    match read_file(alloc, RANDOM, KEY_BYTES * count as usize, desk) {
        Ok(bytes) => seeds_of(alloc, bytes.as_slice(), count),
        Err(fault) => Err(Stop::Failed(fault)),
    }
}
