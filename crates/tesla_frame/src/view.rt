//! What was read of a frame: views that borrow the payload and the rows from the datagram.

ghost use Rattle.std.specs.Prelude.{◌≡◌, ◌*◌, ◌<◌, ◌≤◌, length, take, map, Some, option_map};
ghost use Rattle.std.specs.List.{slice_get};
ghost use Rattle.tesla_base.specs.Tag.{wide_tag};
ghost use Rattle.tesla_base.specs.Version.{number_of, most_chains, IsTagLength};
ghost use Rattle.tesla_frame.specs.Frame.{ChainsRise};
ghost use Rattle.tesla_frame.specs.View.{tag_row_in, AreRowsAt, key_rows_in};

use crate::row::KeyRow;
use crate::rows::{KEY_ROW, key_row_of, optional_key_of};
use std::marker::Model;
use tesla_base::{Key, Name, StreamId, Version, WideTag};

/// The frame that a datagram is.
#[derive(Debug, Drop)]
pub enum FrameView<'a> {
    /// A message with its tags, and perhaps keys.
    Data(DataView<'a>),
    /// Keys alone.
    Disclosure(KeysView<'a>),
}

/// A data frame. Contracts see a `DataFrame`, with one row for each chain. The fields lie in memory in this order. What
/// both kinds of frames have stands in front, in the same places, so that a frame is moved in few pieces.
#[derive(Debug, Drop)]
pub struct DataView<'a> {
    version: Version,
    count: u8,
    tag_length: u8,
    stream: StreamId,
    rows: &'a [u8],
    payload: &'a [u8],
    starts: [u16; 8],
    name: Name,
}

impl<'a> Model for DataView<'a> {
    ghost use Rattle.std.specs.Prelude.{◌≡◌, map, take, ◌≤◌, length};
    ghost use Rattle.tesla_base.specs.Version.{most_chains, IsTagLength};
    ghost use Rattle.tesla_frame.specs.Frame.{DataFrame};

    ghost Value = { DataFrame };

    ghost use Rattle.tesla_frame.specs.View.{tag_row_in, AreRowsAt};

    ghost view = { λ v. record { version = v.version; stream = v.stream; name = v.name; payload = v.payload.now; tag_length = v.tag_length; rows = map (tag_row_in v.tag_length v.rows.now) (take v.count v.starts) } };

    ghost invariant = { λ v. (1 ≤ v.count) × (v.count ≤ most_chains v.version) × IsTagLength v.version v.tag_length × (length v.payload.now ≤ 1200) × (length v.starts ≡ 8) × AreRowsAt v.tag_length v.rows.now v.count v.starts };
}

impl<'a> DataView<'a> {
    /// The view of a frame with these parts, whose rows begin at the first places.
    pub(crate) fn new(
        version: Version,
        stream: StreamId,
        name: Name,
        payload: &'a [u8],
        tag_length: u8,
        count: u8,
        rows: &'a [u8],
        starts: [u16; 8],
    ) -> DataView<'a>
        requires some { 1 ≤ count }
        requires few { count ≤ most_chains version }
        requires size { IsTagLength version tag_length }
        requires limit { length payload.now ≤ 1200 }
        requires room { length starts ≡ 8 }
        requires rows { AreRowsAt tag_length rows.now count starts }
        ensures { result ≡ record { version = version; stream = stream; name = name; payload = payload.entry.now; tag_length = tag_length; rows = map (tag_row_in tag_length rows.entry.now) (take count starts) } }
    {
        DataView {
            version,
            stream,
            name,
            payload,
            tag_length,
            count,
            rows,
            starts,
        }
    }

    /// The version of the frame: 1 or 2.
    pub fn version(&self) -> u8
        ensures { result ≡ number_of self.now.version }
    {
        self.version.number()
    }

    /// The stream's number.
    pub fn stream(&self) -> StreamId
        ensures { result ≡ self.now.stream }
    {
        self.stream
    }

    /// The message's interval, and its number within it.
    pub fn name(&self) -> Name
        ensures { result ≡ self.now.name }
    {
        self.name
    }

    /// The payload, borrowed from the datagram: at most 1,200 bytes.
    pub fn payload(&self) -> &'a [u8]
        ensures payload { result.now ≡ self.now.payload }
        ensures limit { length result.now ≤ 1200 }
    {
        self.payload
    }

    /// How many bytes each tag has: 16 in version 1, and 10 to 32 in version 2.
    pub fn tag_length(&self) -> u8
        ensures length { result ≡ self.now.tag_length }
        ensures limits { IsTagLength self.now.version result }
    {
        self.tag_length
    }

    /// The number of rows, one for each chain: one to four in version 1, and one to eight in version 2.
    pub fn count(&self) -> u8
        ensures count { result ≡ length self.now.rows }
        ensures some { 1 ≤ result }
        ensures few { result ≤ 8 }
        ensures limit { result ≤ most_chains self.now.version }
    {
        self.count
    }

    /// The tag of a chain, copied from the datagram.
    pub fn tag(&self, chain: u8) -> WideTag
        requires { chain < length self.now.rows }
        ensures tag { option_map (λ row. wide_tag row.tag) (slice_get self.now.rows chain) ≡ Some result }
        ensures length { result.length ≡ self.now.tag_length }
    {
        let start = self.starts[chain as usize] as usize;
        WideTag::of(&self.rows[start..start + self.tag_length as usize])
    }

    /// The key of a chain, copied from the datagram, where the frame has one.
    pub fn key(&self, chain: u8) -> Option<Key>
        requires { chain < length self.now.rows }
        ensures { option_map (λ row. row.key) (slice_get self.now.rows chain) ≡ Some result }
    {
        let start = self.starts[chain as usize] as usize;
        optional_key_of(&self.rows[start + self.tag_length as usize..])
    }
}

/// A disclosure frame. Contracts see a `KeysFrame`.
#[derive(Debug, Drop)]
pub struct KeysView<'a> {
    version: Version,
    count: u8,
    stream: StreamId,
    rows: &'a [u8],
}

impl<'a> Model for KeysView<'a> {
    ghost use Rattle.std.specs.Prelude.{◌≡◌, ◌*◌, ◌≤◌, length};
    ghost use Rattle.tesla_base.specs.Version.{most_chains};
    ghost use Rattle.tesla_frame.specs.Frame.{KeysFrame, ChainsRise};

    ghost Value = { KeysFrame };

    ghost use Rattle.tesla_frame.specs.View.{key_rows_in};

    ghost view = { λ v. record { version = v.version; stream = v.stream; rows = key_rows_in v.count v.rows.now } };

    ghost invariant = { λ v. (1 ≤ v.count) × (v.count ≤ most_chains v.version) × (length v.rows.now ≡ 37 * v.count) × ChainsRise (key_rows_in v.count v.rows.now) };
}

impl<'a> KeysView<'a> {
    /// The view of a frame with these parts, whose rows are all of the bytes.
    pub(crate) fn new(version: Version, stream: StreamId, count: u8, rows: &'a [u8]) -> KeysView<'a>
        requires some { 1 ≤ count }
        requires few { count ≤ most_chains version }
        requires room { length rows.now ≡ 37 * count }
        requires rise { ChainsRise (key_rows_in count rows.now) }
        ensures { result ≡ record { version = version; stream = stream; rows = key_rows_in count rows.entry.now } }
    {
        KeysView {
            version,
            stream,
            count,
            rows,
        }
    }

    /// The version of the frame: 1 or 2.
    pub fn version(&self) -> u8
        ensures { result ≡ number_of self.now.version }
    {
        self.version.number()
    }

    /// The stream's number.
    pub fn stream(&self) -> StreamId
        ensures { result ≡ self.now.stream }
    {
        self.stream
    }

    /// The number of rows: one to four in version 1, and one to eight in version 2. Their chains rise strictly.
    #[tactic(auto, using(crate::proofs::InPlace::key_rows_length))]
    pub fn count(&self) -> u8
        ensures count { result ≡ length self.now.rows }
        ensures some { 1 ≤ result }
        ensures few { result ≤ 8 }
        ensures limit { result ≤ most_chains self.now.version }
        ensures rise { ChainsRise self.now.rows }
    {
        self.count
    }

    /// A row, by its place from 0, copied from the datagram.
    #[tactic(auto, using(crate::proofs::InPlace::key_rows_length))]
    pub fn row(&self, place: u8) -> KeyRow
        requires { place < length self.now.rows }
        ensures { slice_get self.now.rows place ≡ Some result }
    {
        key_row_of(&self.rows[KEY_ROW * place as usize..])
    }
}
