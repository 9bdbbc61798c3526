//! Which held packets new keys prove.

ghost use Rattle.std.specs.Prelude.{◌≡◌, ℕ, ◌+◌, ◌*◌, ◌-◌, ◌<◌, ◌≤◌, ◌&&◌, List, All, IfSome, length, map, option_to_list, take, true, find, position, nat_le, slice_get, if◌then◌else◌};
ghost use Rattle.std.specs.List.{list_any};
ghost use Rattle.tesla_base.specs.Tag.{wide_tag};
ghost use Rattle.tesla_frame.specs.Frame.{ChainsRise};
ghost use Rattle.tesla_keys.specs.Tip.{Tip};
ghost use Rattle.tesla_prf.specs.Keys.{walk, tag_of};
ghost use Rattle.tesla_fitting.specs.Config.{chains};
ghost use Rattle.tesla_walks.specs.ItemShown.{holding_in, IsItem};
ghost use Rattle.tesla_fitting.specs.Rows.{is_of};
ghost use Rattle.tesla_walks.specs.Tips.{tip_at};
ghost use Rattle.tesla_walks.specs.Proved.{matches, is_proof_of, proves_on, proof_of, release_in};
ghost use Rattle.tesla_walks.specs.Walking.{rows_of, IsAbove, left_of, left, reaches, is_tried, tried, tries};

use crate::Release;
use crate::ordering::Proved;
use crate::walk::Walk;
use std::sync::ledger::Ledger;
use tesla_base::{ChainNo, Place, Steps, WideTag};
use tesla_buffer::Item;
use tesla_fitting::{Config, has_chain};
use tesla_keys::Verifier;

/// The tag that an item has for the walk's chain if it is authentic: one counted step.
fn made_tag<L: Ledger>(
    config: &Config,
    walking: &Walk,
    item: &Item,
    steps: &mut Steps<L>,
) -> WideTag
    requires made { walking.now.made ≡ true }
    requires here { walking.now.reached ≡ item.now.name.interval }
    requires payload { item.now.length ≤ 1200 }
    ensures value { result ≡ wide_tag (tag_of config.now.setup.tag_length (walk walking.now.row.key (walking.now.row.index - item.now.name.interval)) config.now.setup.stream walking.now.row.chain item.now.name (take item.now.length item.now.payload)) }
    ensures cost { steps.new ≡ steps.old + 1 }
{
    let setup = &config.setup;
    let payload = &item.payload[..usize::from(item.length)];
    let (stream, length) = (setup.stream(), setup.tag_length());
    walking.mac().wide_tag(
        stream,
        walking.row().chain,
        item.name,
        payload,
        length,
        steps,
    )
}

/// Whether an item's tag for the walk's chain verifies under the key that the walk comes to at the item's
/// interval (RFC 4082, section 3.5). The counted steps are those of the walk, and at most two.
fn verifies<L: Ledger>(
    config: &Config,
    walking: &mut Walk,
    item: &Item,
    steps: &mut Steps<L>,
) -> bool
    requires chain { walking.old.row.chain.0 < length config.now.setup.rows }
    requires above { item.now.name.interval ≤ walking.old.reached }
    requires item { IsItem (length config.now.setup.rows) item.now }
    ensures value { let shown = holding_in (length config.now.setup.rows) item.now in
        result ≡ matches config.now shown walking.old.row.chain.0 walking.old.row (slice_get shown.tags walking.old.row.chain.0) }
    ensures reached { walking.new ≡ record { row = walking.old.row; reached = item.now.name.interval; made = true } }
    ensures cost { steps.new + item.now.name.interval ≤ steps.old + walking.old.reached + 2 }
{
    walking.reach(item.name.interval, steps);
    let made = made_tag(config, walking, item, steps);
    item.tags[usize::from(walking.row().chain.0)] == made
}

/// Whether the walk's key reaches an item's interval, and verifies its tag.
fn proves<L: Ledger>(config: &Config, walking: &mut Walk, item: &Item, steps: &mut Steps<L>) -> bool
    requires chain { walking.old.row.chain.0 < length config.now.setup.rows }
    requires above { IsAbove item.now.name.interval walking.old }
    requires item { IsItem (length config.now.setup.rows) item.now }
    ensures value { let shown = holding_in (length config.now.setup.rows) item.now in
        result ≡ (nat_le item.now.name.interval walking.old.row.index
        && matches config.now shown walking.old.row.chain.0 walking.old.row (slice_get shown.tags walking.old.row.chain.0)) }
    ensures row { walking.new.row ≡ walking.old.row }
    ensures above { IsAbove item.now.name.interval walking.new }
    ensures cost { (tips : List Tip) → (tip_at tips walking.old.row.chain.0).index < item.now.name.interval →
        steps.new + left_of tips walking.new ≤ steps.old + left_of tips walking.old + 2 * (if nat_le item.now.name.interval walking.old.row.index then 1 else 0) }
{
    item.name.interval <= walking.row().index && verifies(config, walking, item, steps)
}

/// The place of the walk of a chain.
fn arrival_number(walks: &[Walk], chain: u8) -> Option<usize>
    ensures { result ≡ position (λ walking. is_of chain walking.row) walks.now }
{
    walks
        .iter()
        .position(|walking| walking.row().chain.0 == chain)
}

/// Whether the new key of a chain, if there is one, reaches an item's interval, and verifies its tag.
fn any_proof<L: Ledger>(
    config: &Config,
    walks: &mut [Walk],
    item: &Item,
    chain: u8,
    steps: &mut Steps<L>,
) -> bool
    requires chain { chain < length config.now.setup.rows }
    requires rise { ChainsRise (rows_of walks.old) }
    requires above { All (IsAbove item.now.name.interval) walks.old }
    requires item { IsItem (length config.now.setup.rows) item.now }
    ensures value { result ≡ list_any (is_proof_of config.now (holding_in (length config.now.setup.rows) item.now) chain) (rows_of walks.old) }
    ensures rows { rows_of walks.new ≡ rows_of walks.old }
    ensures above { All (IsAbove item.now.name.interval) walks.new }
    ensures cost { (tips : List Tip) → (tip_at tips chain).index < item.now.name.interval →
        steps.new + left tips walks.new ≤ steps.old + left tips walks.old + 2 * (if list_any (reaches chain item.now.name.interval) (rows_of walks.old) then 1 else 0) }
{
    let Some(place) = arrival_number(walks, chain) else {
        return false;
    };
    proves(config, &mut walks[place], item, steps)
}

/// Whether new keys prove an item on a chain.
fn is_proved_on<L: Ledger>(
    config: &Config,
    tips: &[Verifier],
    walks: &mut [Walk],
    item: &Item,
    chain: u8,
    steps: &mut Steps<L>,
) -> bool
    requires chain { chain < length config.now.setup.rows }
    requires tips { length tips.now ≡ length config.now.setup.rows }
    requires rise { ChainsRise (rows_of walks.old) }
    requires above { All (IsAbove item.now.name.interval) walks.old }
    requires item { IsItem (length config.now.setup.rows) item.now }
    ensures value { result ≡ proves_on config.now tips.now (rows_of walks.old) (holding_in (length config.now.setup.rows) item.now) chain }
    ensures rows { rows_of walks.new ≡ rows_of walks.old }
    ensures above { All (IsAbove item.now.name.interval) walks.new }
    ensures cost { steps.new + left tips.now walks.new ≤ steps.old + left tips.now walks.old
        + 2 * (if is_tried tips.now (rows_of walks.old) (holding_in (length config.now.setup.rows) item.now) chain then 1 else 0) }
{
    if !has_chain(item.chains, chain) || item.name.interval <= tips[usize::from(chain)].newest().0 {
        return false;
    }
    any_proof(config, walks, item, chain, steps)
}

/// The least chain on which new keys prove an item.
///
/// The walks stand no lower than the item's interval. Their new keys, of one for each chain at most, are those that
/// are newer than `tips`. A walk goes down only as far as an item needs it. The counted steps are those of the
/// walks, and at most two for each chain on which the item is tried: its tag, and a MAC key.
pub fn proving_chain<L: Ledger>(
    config: &Config,
    tips: &[Verifier],
    walks: &mut [Walk],
    item: &Item,
    steps: &mut Steps<L>,
) -> Option<u8>
    requires tips { length tips.now ≡ length config.now.setup.rows }
    requires rise { ChainsRise (rows_of walks.old) }
    requires above { All (IsAbove item.now.name.interval) walks.old }
    requires item { IsItem (length config.now.setup.rows) item.now }
    ensures value { let shown = holding_in (length config.now.setup.rows) item.now in
        result ≡ find (proves_on config.now tips.now (rows_of walks.old) shown) (chains config.now) }
    ensures rows { rows_of walks.new ≡ rows_of walks.old }
    ensures above { All (IsAbove item.now.name.interval) walks.new }
    ensures cost { let shown = holding_in (length config.now.setup.rows) item.now in
        steps.new + left tips.now walks.new ≤ steps.old + left tips.now walks.old + 2 * tried config.now tips.now (rows_of walks.old) shown }
{
    for chain in 0..config.setup.count() {
        if is_proved_on(config, tips, walks, item, chain, steps) {
            return Some(chain);
        }
    }
    None
}

/// What new keys prove of the item at a place of the buffer, told the least chain that proves it. An item that is
/// released isn't tried, and takes no step; else the counted steps are those of `proving_chain`.
pub fn prove<L: Ledger>(
    config: &Config,
    tips: &[Verifier],
    walks: &mut [Walk],
    item: &Item,
    place: Place,
    steps: &mut Steps<L>,
) -> Option<Proved>
    requires tips { length tips.now ≡ length config.now.setup.rows }
    requires rise { ChainsRise (rows_of walks.old) }
    requires above { All (IsAbove item.now.name.interval) walks.old }
    requires item { IsItem (length config.now.setup.rows) item.now }
    ensures value { let shown = holding_in (length config.now.setup.rows) item.now in
        map release_in (option_to_list result) ≡ proof_of config.now tips.now (rows_of walks.old) shown }
    ensures place { IfSome result (λ proved. proved.place ≡ place) }
    ensures rows { rows_of walks.new ≡ rows_of walks.old }
    ensures above { All (IsAbove item.now.name.interval) walks.new }
    ensures cost { let shown = holding_in (length config.now.setup.rows) item.now in
        steps.new + left tips.now walks.new ≤ steps.old + left tips.now walks.old
        + 2 * tries config.now tips.now (rows_of walks.old) shown }
{
    if item.released {
        return None;
    }
    let Some(chain) = proving_chain(config, tips, walks, item, steps) else {
        return None;
    };
    let release = Release {
        place: item.order as usize,
        name: item.name,
        chain: ChainNo(chain),
    };
    Some(Proved { release, place })
}
