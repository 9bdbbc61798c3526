//! A frame read from a datagram.

ghost use Rattle.std.specs.Prelude.{◌≡◌, Some, option_map, IfSome};
ghost use Rattle.tesla_frame.specs.Frame.{Frame, IsFrame};
ghost use Rattle.tesla_frame.specs.Reading.{version_at, data_of, keys_of, body_of, frame_of};
ghost use Rattle.tesla_frame.specs.Shown.{shown};

use crate::fields::{byte_of, count_of, payload_of, tag_length_of};
use crate::rows::{KEY_ROW, do_chains_rise, row_starts};
use crate::view::{DataView, FrameView, KeysView};
use tesla_base::{Name, StreamId, Version, take_u16, take_u32, take_u64};

/// The first bytes of every frame.
pub const MAGIC: [u8; 4] = [b'T', b'S', b'L', b'A'];

#[tactic(auto, unfolding(crate::specs::Reading::data_of))]
fn data(version: Version, bytes: &[u8]) -> Option<DataView<'_>>
    ensures { result ≡ data_of version bytes.now }
{
    let Some((stream, rest)) = take_u64(bytes) else {
        return None;
    };
    let Some((interval, rest)) = take_u32(rest) else {
        return None;
    };
    let Some((number, rest)) = take_u16(rest) else {
        return None;
    };
    let Some((payload, rest)) = payload_of(rest) else {
        return None;
    };
    let Some((count, rest)) = count_of(version, rest) else {
        return None;
    };
    let Some((size, rows)) = tag_length_of(version, rest) else {
        return None;
    };
    let Some(read) = row_starts(size, count, rows) else {
        return None;
    };
    let (starts, end) = (read.0, read.1);
    if end != rows.len() {
        return None;
    }
    let name = Name { interval, number };
    Some(DataView::new(
        version,
        StreamId(stream),
        name,
        payload,
        size,
        count,
        rows,
        starts,
    ))
}

#[tactic(auto, unfolding(crate::specs::Reading::keys_of))]
fn keys(version: Version, bytes: &[u8]) -> Option<KeysView<'_>>
    ensures { result ≡ keys_of version bytes.now }
{
    let Some((stream, rest)) = take_u64(bytes) else {
        return None;
    };
    let Some((count, rows)) = count_of(version, rest) else {
        return None;
    };
    if rows.len() != KEY_ROW * count as usize {
        return None;
    }
    if !do_chains_rise(count, rows) {
        return None;
    }
    Some(KeysView::new(version, StreamId(stream), count, rows))
}

#[tactic(auto, unfolding(crate::specs::Reading::body_of))]
fn body(version: Version, bytes: &[u8]) -> Option<FrameView<'_>>
    ensures { option_map shown result ≡ body_of version bytes.now }
{
    match bytes {
        [1, rest @ ..] => {
            let Some(view) = data(version, rest) else {
                return None;
            };
            Some(FrameView::Data(view))
        }
        [2, rest @ ..] => {
            let Some(view) = keys(version, rest) else {
                return None;
            };
            Some(FrameView::Disclosure(view))
        }
        _ => None,
    }
}

/// The frame that the datagram is, with no byte more, in version 1 or 2. None exactly where it isn't a
/// frame. It takes no memory, and copies no payload, tag or key.
pub fn read_frame(bytes: &[u8]) -> Option<FrameView<'_>>
    // What is read is spelled so.
    ensures found { IfSome result (λ view. IsFrame bytes.now (shown view)) }
    // What is spelled so is read.
    ensures only { (frame : Frame) → IsFrame bytes.now frame → option_map shown result ≡ Some frame }
    // Both in one equation.
    ensures exact { option_map shown result ≡ frame_of bytes.now }
{
    frame(bytes)
}

/// The version behind the magic.
#[tactic(auto, unfolding(crate::specs::Reading::version_at))]
fn version_of(bytes: &[u8]) -> Option<(Version, &[u8])>
    ensures { option_map (λ x. (x.0, x.1.now)) result ≡ version_at bytes.now }
{
    // The bytes are compared one by one, which the compiler makes one comparison.
    let [t, s, l, a, rest @ ..] = bytes else {
        return None;
    };
    let Some((number, rest)) = byte_of(rest) else {
        return None;
    };
    let Some(version) = Version::of(number) else {
        return None;
    };
    if *t == MAGIC[0] && *s == MAGIC[1] && *l == MAGIC[2] && *a == MAGIC[3] {
        Some((version, rest))
    } else {
        None
    }
}

#[tactic(auto, unfolding(crate::specs::Reading::frame_of))]
fn frame(bytes: &[u8]) -> Option<FrameView<'_>>
    ensures { option_map shown result ≡ frame_of bytes.now }
{
    let Some((version, rest)) = version_of(bytes) else {
        return None;
    };
    body(version, rest)
}
