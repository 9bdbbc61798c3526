//! The head of a frame in numbers.

ghost use Rattle.std.specs.Prelude.{◌≡◌, ◌≤◌};
ghost use Rattle.std.specs.List.{slice_get};
ghost use Rattle.tesla_frame.specs.Frame.{Data, Disclosure};
ghost use Rattle.tesla_frame.specs.Shown.{shown};
ghost use Rattle.tesla_c.specs.Pure.{frame_told, keys_told, place_keys};

use tesla_frame::{DataView, FrameView, KeysView};

/// What a frame is, but for its payload, its tags and its keys: for a message its interval and its number, and the bytes of
/// its payload and of a tag; and how many keys it tells.
#[repr(C)]
#[derive(Drop)]
pub struct CFrame {
    pub stream: u64,
    pub interval: u32,
    pub number: u16,
    pub length: u16,
    pub version: u32,
    pub kind: u32,
    pub tag_length: u32,
    pub keys: u32,
}

// How many keys a message tells in the row of a chain.
fn keys_at(frame: &DataView<'_>, chain: u8) -> u32
    ensures value { result ≡ place_keys (slice_get frame.now.rows chain) }
    ensures few { result ≤ 1 }
{
    if frame.count() <= chain {
        return 0;
    }
    match frame.key(chain) {
        Some(_) => 1,
        None => 0,
    }
}

// How many keys a message tells.
fn keys_in(frame: &DataView<'_>) -> u32
    ensures { result ≡ keys_told frame.now.rows }
{
    let first = keys_at(frame, 0) + keys_at(frame, 1) + keys_at(frame, 2) + keys_at(frame, 3);
    let others = keys_at(frame, 4) + keys_at(frame, 5) + keys_at(frame, 6) + keys_at(frame, 7);
    first + others
}

fn message_told(frame: &DataView<'_>) -> CFrame
    ensures { result ≡ frame_told (Data frame.now) }
{
    CFrame {
        stream: frame.stream().0,
        interval: frame.name().interval,
        number: frame.name().number,
        length: frame.payload().len() as u16,
        version: u32::from(frame.version()),
        kind: 0,
        tag_length: u32::from(frame.tag_length()),
        keys: keys_in(frame),
    }
}

fn disclosure_told(frame: &KeysView<'_>) -> CFrame
    ensures { result ≡ frame_told (Disclosure frame.now) }
{
    CFrame {
        stream: frame.stream().0,
        interval: 0,
        number: 0,
        length: 0,
        version: u32::from(frame.version()),
        kind: 1,
        tag_length: 0,
        keys: u32::from(frame.count()),
    }
}

/// The head of a frame in numbers.
pub(crate) fn head_of(frame: &FrameView<'_>) -> CFrame
    ensures { result ≡ frame_told (shown frame.now) }
{
    match frame {
        FrameView::Data(message) => message_told(message),
        FrameView::Disclosure(keys) => disclosure_told(keys),
    }
}
