//! The offers of a frame's keys to the newest keys of their chains.

ghost use Rattle.std.specs.Prelude.{◌≡◌, ◌+◌, ◌-◌, ◌<◌, ◌≤◌, ◌++◌, ◌∷◌, [], false, true, All, IfNone, IfSome, filter, find, length, option_map, option_to_list, vec_capacity, Some};
ghost use Rattle.std.specs.List.{slice_get};
ghost use Rattle.tesla_frame.specs.Frame.{ChainsRise};
ghost use Rattle.tesla_frame.specs.Shown.{shown};
ghost use Rattle.tesla_fitting.specs.Fitting.{is_misfit};
ghost use Rattle.tesla_fitting.specs.Rows.{keys_of, leads_to, row_count};
ghost use Rattle.tesla_walks.specs.Offered.{AreGood, HaveBegun, IsOfChains, gaps, newer_keys};
ghost use Rattle.tesla_walks.specs.Tips.{fails, is_newer, tip_at, tips_after};
ghost use Rattle.tesla_walks.specs.Walking.{fresh, rows_of};

use crate::walk::Walk;
use std::sync::ledger::Ledger;
use tesla_base::{ChainNo, Steps};
use tesla_fitting::{Config, key_above, may_be_above, row_count};
use tesla_frame::{FrameView, KeyRow, KeysView};
use tesla_keys::{Offer, Verifier};

/// The key in a row of a disclosure frame, if it is newer than the newest of its chain.
fn disclosed_key(tips: &[Verifier], frame: &KeysView<'_>, place: u8) -> Option<KeyRow>
    requires within { place < length frame.now.rows }
    requires known { All (IsOfChains (length tips.now)) frame.now.rows }
    ensures value { option_map (λ row. filter (is_newer tips.now) (row ∷ [])) (slice_get frame.now.rows place) ≡ Some (option_to_list result) }
    ensures known { IfSome result (λ row. row.chain.0 < length tips.now) }
    ensures newer { IfSome result (λ row. (tip_at tips.now row.chain.0).index < row.index) }
{
    let row = frame.row(place);
    if row.index <= tips[usize::from(row.chain.0)].newest().0 {
        return None;
    }
    Some(row)
}

/// Whether the key in a row of a frame may be newer than the newest of its chain. Of a data frame that is judged by its
/// interval, and the row isn't looked at.
fn may_be_newer(config: &Config, tips: &[Verifier], frame: &FrameView<'_>, place: u8) -> bool
    requires fits { is_misfit config.now (shown frame.now) ≡ false }
    requires tips { length tips.now ≡ length config.now.setup.rows }
    requires within { place < row_count (shown frame.now) }
    ensures { result ≡ false → newer_keys config.now tips.now (shown frame.now) (place + 1) ≡ newer_keys config.now tips.now (shown frame.now) place }
{
    match frame {
        FrameView::Data(data) => {
            let (newest, _) = tips[usize::from(place)].newest();
            may_be_above(config, data, place, newest)
        }
        FrameView::Disclosure(_) => true,
    }
}

/// The key in a row of a frame, if it is newer than the newest of its chain. A data frame's other keys aren't looked at.
fn newer_key(config: &Config, tips: &[Verifier], frame: &FrameView<'_>, place: u8) -> Option<KeyRow>
    requires fits { is_misfit config.now (shown frame.now) ≡ false }
    requires tips { length tips.now ≡ length config.now.setup.rows }
    requires within { place < row_count (shown frame.now) }
    ensures more { newer_keys config.now tips.now (shown frame.now) (place + 1) ≡ newer_keys config.now tips.now (shown frame.now) place ++ option_to_list result }
    ensures known { IfSome result (λ row. row.chain.0 < length tips.now) }
    ensures newer { IfSome result (λ row. (tip_at tips.now row.chain.0).index < row.index) }
{
    match frame {
        FrameView::Data(data) => {
            let (newest, _) = tips[usize::from(place)].newest();
            key_above(config, data, place, newest)
        }
        FrameView::Disclosure(keys) => disclosed_key(tips, keys, place),
    }
}

/// Whether a key that is newer than the newest of its chain is good. Then it is appended as a walk. The counted steps
/// are as many as it is above the newest.
fn offer_row<L: Ledger>(
    verifier: &Verifier,
    row: KeyRow,
    walks: &mut Vec<Walk>,
    steps: &mut Steps<L>,
) -> bool
    requires newer { verifier.now.index < row.index }
    requires room { length walks.old.items < vec_capacity walks.old }
    ensures value { result ≡ leads_to row verifier.now.index verifier.now.key }
    ensures walks { result ≡ true → walks.new.items ≡ walks.old.items ++ fresh row ∷ [] }
    ensures capacity { vec_capacity walks.new ≡ vec_capacity walks.old }
    ensures cost { steps.new ≡ steps.old + (row.index - verifier.now.index) }
{
    let walking = Walk::new(row);
    let Offer::Good { .. } = walking.offer(verifier, steps) else {
        return false;
    };
    walks.push_reserved(walking);
    true
}

/// Offers a frame's keys to the newest keys of their chains, and takes none. `Some` is the chain of the first key
/// that is newer than its chain's newest and doesn't walk to it. Where there is none, `walks` has a walk for each newer
/// key, in order. No memory is taken: `walks` is empty, with room for eight.
///
/// The counted steps are those from the newer keys down to the newest, up to the first that isn't good.
pub fn offer_keys<L: Ledger>(
    config: &Config,
    tips: &[Verifier],
    frame: &FrameView<'_>,
    walks: &mut Vec<Walk>,
    steps: &mut Steps<L>,
) -> Option<ChainNo>
    requires fits { is_misfit config.now (shown frame.now) ≡ false }
    requires tips { length tips.now ≡ length config.now.setup.rows }
    requires empty { walks.old.items ≡ [] }
    requires room { 8 ≤ vec_capacity walks.old }
    ensures value { result ≡ option_map (λ row. row.chain) (find (fails tips.now) (keys_of config.now (shown frame.now))) }
    ensures begun { IfNone result (HaveBegun tips.now (keys_of config.now (shown frame.now)) walks.new.items) }
    ensures capacity { vec_capacity walks.new ≡ vec_capacity walks.old }
    ensures most { steps.new ≤ steps.old + gaps tips.now (keys_of config.now (shown frame.now)) }
    ensures cost { IfNone result (steps.new ≡ steps.old + gaps tips.now (keys_of config.now (shown frame.now))) }
{
    for place in 0..row_count(frame) {
        if !may_be_newer(config, tips, frame, place) {
            continue;
        }
        let Some(row) = newer_key(config, tips, frame, place) else {
            continue;
        };
        if !offer_row(&tips[usize::from(row.chain.0)], row, walks, steps) {
            return Some(row.chain);
        }
    }
    None
}

/// Takes the keys of walks: each is the newest of its chain from then on.
pub fn raise(tips: &mut [Verifier], walks: &[Walk])
    requires chains { All (IsOfChains (length tips.old)) (rows_of walks.now) }
    requires rise { ChainsRise (rows_of walks.now) }
    requires good { AreGood tips.old (rows_of walks.now) }
    ensures { tips.new ≡ tips_after tips.old (rows_of walks.now) }
{
    for walking in walks {
        let row = walking.row();
        tips[usize::from(row.chain.0)].take(row.index, row.key);
    }
}
