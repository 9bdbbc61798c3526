//! The keys that a frame carries, row by row.

ghost use Rattle.std.specs.Prelude.{◌≡◌, ◌-◌, [], false, ◌<◌, ◌≤◌, IfSome, Some, filter, length, nat_lt, option_map, option_to_list};
ghost use Rattle.std.specs.List.{slice_get};
ghost use Rattle.tesla_frame.specs.Frame.{ChainsRise};
ghost use Rattle.tesla_frame.specs.Shown.{shown};
ghost use Rattle.tesla_fitting.specs.declared.config.Config.{Config};
ghost use Rattle.tesla_fitting.specs.Config.{chain_row};
ghost use Rattle.tesla_fitting.specs.Rows.{carried, is_past, keys_of, row_count};

use crate::Config;
use crate::chains::chain_row;
use tesla_base::ChainNo;
use tesla_frame::{DataView, FrameView, KeyRow};

/// How many rows a frame has. The chains of the keys in them rise.
pub fn row_count(frame: &FrameView<'_>) -> u8
    ensures count { result ≡ row_count (shown frame.now) }
    ensures few { result ≤ 8 }
    ensures rise { (config : Config) → ChainsRise (keys_of config (shown frame.now)) }
{
    match frame {
        FrameView::Data(data) => data.count(),
        FrameView::Disclosure(keys) => keys.count(),
    }
}

// The index of the key that a data frame carries for a chain, if it carries one. In an interval below the chain's delay
// there is none, and no index is below 0.
fn index_in(config: &Config, frame: &DataView<'_>, chain: u8) -> u32
    ensures { result ≡ frame.now.name.interval - (chain_row config.now chain).delay }
{
    frame
        .name()
        .interval
        .saturating_sub(u32::from(chain_row(config, chain).delay))
}

/// Whether a data frame can carry a key for a chain whose index is above this one, by its interval alone. Where it
/// can't, nothing of the row is looked at.
pub fn may_be_above(config: &Config, frame: &DataView<'_>, chain: u8, newest: u32) -> bool
    requires { chain < length frame.now.rows }
    ensures value { result ≡ nat_lt newest (frame.now.name.interval - (chain_row config.now chain).delay) }
    ensures none { result ≡ false → option_map (λ row. filter (is_past newest) (carried config.now frame.now.name.interval chain row.key)) (slice_get frame.now.rows chain) ≡ Some [] }
{
    newest < index_in(config, frame, chain)
}

/// The key that a data frame carries for a chain, if its index is above this one. Another key is neither copied nor
/// looked at.
pub fn key_above(config: &Config, frame: &DataView<'_>, chain: u8, newest: u32) -> Option<KeyRow>
    requires { chain < length frame.now.rows }
    ensures value { option_map (λ row. filter (is_past newest) (carried config.now frame.now.name.interval chain row.key)) (slice_get frame.now.rows chain) ≡ Some (option_to_list result) }
    ensures chain { IfSome result (λ row. row.chain.0 ≡ chain) }
    ensures above { IfSome result (λ row. newest < row.index) }
{
    let index = index_in(config, frame, chain);
    if index <= newest {
        return None;
    }
    let Some(key) = frame.key(chain) else {
        return None;
    };
    Some(KeyRow {
        chain: ChainNo(chain),
        index,
        key,
    })
}
