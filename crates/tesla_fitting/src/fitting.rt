//! Whether a frame fits the setup, and the time.

ghost use Rattle.std.specs.Prelude.{◌≡◌, ◌<◌, Some, length, option_map};
ghost use Rattle.std.specs.List.{list_any, enumerate_from, slice_get};
ghost use Rattle.tesla_frame.specs.Frame.{Data};
ghost use Rattle.tesla_frame.specs.Shown.{shown};
ghost use Rattle.tesla_base.specs.Version.{number_of};
ghost use Rattle.tesla_fitting.specs.Fitting.{is_early, is_outside, fields_misfit, is_misfit, is_undisclosed, is_future, stream_of, unfit, version_in};

use crate::chains::chain_row;
use crate::{Config, Verdict};
use tesla_base::StreamId;
use tesla_frame::{DataView, FrameView, KeyRow, KeysView};

/// The stream of a frame.
pub fn stream_of(frame: &FrameView<'_>) -> StreamId
    ensures { result ≡ stream_of (shown frame.now) }
{
    match frame {
        FrameView::Data(data) => data.stream(),
        FrameView::Disclosure(keys) => keys.stream(),
    }
}

// Whether the frame's version isn't the setup's, or its fields don't fit the setup.
fn is_misfit(config: &Config, frame: &FrameView<'_>) -> bool
    ensures { result ≡ is_misfit config.now (shown frame.now) }
{
    version_of(frame) != config.setup.version() || fields_misfit(config, frame)
}

// The number of a frame's version.
fn version_of(frame: &FrameView<'_>) -> u8
    ensures { result ≡ number_of (version_in (shown frame.now)) }
{
    match frame {
        FrameView::Data(data) => data.version(),
        FrameView::Disclosure(keys) => keys.version(),
    }
}

fn fields_misfit(config: &Config, frame: &FrameView<'_>) -> bool
    ensures { result ≡ fields_misfit config.now (shown frame.now) }
{
    match frame {
        FrameView::Data(data) => data_misfit(config, data),
        FrameView::Disclosure(keys) => keys_misfit(config, keys),
    }
}

fn data_misfit(config: &Config, frame: &DataView<'_>) -> bool
    ensures { result ≡ fields_misfit config.now (Data frame.now) }
{
    let interval = frame.name().interval;
    interval == 0
        || config.setup.schedule().last() < interval
        || frame.count() != config.setup.count()
        || frame.tag_length() != config.setup.tag_length()
        || any_early_key(config, frame)
}

// Whether a row carries a key though the interval is below its chain's delay.
fn any_early_key(config: &Config, frame: &DataView<'_>) -> bool
    ensures { result ≡ list_any (λ p. is_early config.now frame.now.name.interval p.0 p.1.key) (enumerate_from 0 frame.now.rows) }
{
    let interval = frame.name().interval;
    for chain in 0..frame.count() {
        if is_early(config, interval, chain, frame) {
            return true;
        }
    }
    false
}

// Whether a chain's row carries a key though this interval is below the delay. In another interval the row isn't
// looked at.
fn is_early(config: &Config, interval: u32, chain: u8, frame: &DataView<'_>) -> bool
    requires { chain < length frame.now.rows }
    ensures { option_map (λ row. is_early config.now interval chain row.key) (slice_get frame.now.rows chain) ≡ Some result }
{
    interval < u32::from(chain_row(config, chain).delay) && frame.key(chain).is_some()
}

fn keys_misfit(config: &Config, frame: &KeysView<'_>) -> bool
    ensures { result ≡ list_any (is_outside config.now) frame.now.rows }
{
    for place in 0..frame.count() {
        let row = frame.row(place);
        if is_outside(config, &row) {
            return true;
        }
    }
    false
}

fn is_outside(config: &Config, row: &KeyRow) -> bool
    ensures { result ≡ is_outside config.now row.now }
{
    row.chain.0 >= config.setup.count() || config.setup.schedule().last() < row.index
}

// Whether the sender's interval can't have reached the frame's yet, by the bound on it.
fn is_future(config: &Config, bound: Option<u64>, frame: &FrameView<'_>) -> bool
    ensures { result ≡ is_future config.now bound (shown frame.now) }
{
    let Some(bound) = bound else {
        return true;
    };
    match frame {
        FrameView::Data(data) => bound < u64::from(data.name().interval),
        FrameView::Disclosure(keys) => any_future_key(config, bound, keys),
    }
}

// Whether a disclosed key can't be disclosed yet.
fn any_future_key(config: &Config, bound: u64, frame: &KeysView<'_>) -> bool
    ensures { result ≡ list_any (is_undisclosed config.now bound) frame.now.rows }
{
    for place in 0..frame.count() {
        let row = frame.row(place);
        if is_undisclosed(config, bound, &row) {
            return true;
        }
    }
    false
}

fn is_undisclosed(config: &Config, bound: u64, row: &KeyRow) -> bool
    ensures { result ≡ is_undisclosed config.now bound row.now }
{
    bound < u64::from(row.index) + u64::from(chain_row(config, row.chain.0).delay)
}

/// Why a frame is refused before its keys are looked at: `Foreign`, `Misfit` or `Future`, the first that applies.
pub fn unfit(config: &Config, bound: Option<u64>, frame: &FrameView<'_>) -> Option<Verdict>
    ensures { result ≡ unfit config.now bound (shown frame.now) }
{
    let stream = stream_of(frame);
    if stream.0 != config.setup.stream().0 {
        return Some(Verdict::Foreign { stream });
    }
    if is_misfit(config, frame) {
        return Some(Verdict::Misfit);
    }
    if is_future(config, bound, frame) {
        return Some(Verdict::Future { bound });
    }
    None
}
