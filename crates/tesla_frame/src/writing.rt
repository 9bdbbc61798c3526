//! Frames written into the room for a datagram.

ghost use Rattle.std.specs.Prelude.{◌≡◌, ◌+◌, ◌*◌, ◌^◌, ◌<◌, ◌≤◌, List, ℕ, [], ◌∷◌, ◌++◌, length};
ghost use Rattle.std.specs.Int.{w16, w32, w64, to_be_bytes};
ghost use Rattle.std.specs.List.{flat_map, AllByRecursion};
ghost use Rattle.tesla_base.specs.Tag.{tag_bytes};
ghost use Rattle.tesla_base.specs.Version.{version_named, most_chains, IsVersion, IsTagLength};
ghost use Rattle.tesla_frame.specs.Frame.{AreBytes, ChainsRise, IsTagRow, IsKeyRow, HasLimits, head, counts_text, tag_row_text, key_row_text, frame_text};
ghost use Rattle.tesla_frame.specs.Written.{Begins, rows_of, first_length, HasLength, data_frame, keys_frame};

use crate::reading::MAGIC;
use crate::row::KeyRow;
use tesla_base::{ChainNo, Key, MOST_DATAGRAM, Name, StreamId, Version, WideTag};

/// Puts the piece at a place, and gives the place after it.
fn put(into: &mut [u8; MOST_DATAGRAM], at: usize, piece: &[u8]) -> usize
    requires { at + length piece.now ≤ 2048 }
    ensures next { result ≡ at + length piece.now }
    ensures bytes { AreBytes piece.now }
    ensures text { (text before : List ℕ) → length text ≡ at → Begins text before into.old → Begins (text ++ piece.now) before into.new }
{
    let next = at + piece.len();
    into[at..next].copy_from_slice(piece);
    next
}

/// The version of a number: 1 or 2.
fn version_of(number: u8) -> Version
    requires { IsVersion number }
    ensures { result ≡ version_named number }
{
    match number {
        2 => Version::Two,
        _ => Version::One,
    }
}

/// The fields of a data frame before its payload.
fn data_head(version: Version, stream: StreamId, name: Name, length: u16) -> [u8; 22]
    ensures { result ≡ head version ++ 1 ∷ [] ++ to_be_bytes w64 stream.0 ++ to_be_bytes w32 name.interval ++ to_be_bytes w16 name.number ++ to_be_bytes w16 length }
{
    let mut bytes = [1; 22];
    bytes[..4].copy_from_slice(&MAGIC);
    bytes[4] = version.number();
    bytes[6..14].copy_from_slice(&stream.0.to_be_bytes());
    bytes[14..18].copy_from_slice(&name.interval.to_be_bytes());
    bytes[18..20].copy_from_slice(&name.number.to_be_bytes());
    bytes[20..].copy_from_slice(&length.to_be_bytes());
    bytes
}

/// The fields of a disclosure frame before its count.
fn keys_head(version: Version, stream: StreamId) -> [u8; 14]
    ensures { result ≡ head version ++ 2 ∷ [] ++ to_be_bytes w64 stream.0 }
{
    let mut bytes = [2; 14];
    bytes[..4].copy_from_slice(&MAGIC);
    bytes[4] = version.number();
    bytes[6..].copy_from_slice(&stream.0.to_be_bytes());
    bytes
}

/// Puts the number of rows, and in version 2 the length of their tags.
fn put_counts(
    into: &mut [u8; MOST_DATAGRAM],
    at: usize,
    version: Version,
    count: u8,
    size: u8,
) -> usize
    requires { at + 2 ≤ 2048 }
    ensures next { result ≡ at + length (counts_text version count size) }
    ensures few { result ≤ at + 2 }
    ensures text { (text before : List ℕ) → length text ≡ at → Begins text before into.old → Begins (text ++ counts_text version count size) before into.new }
{
    match version {
        Version::One => put(into, at, &[count]),
        Version::Two => put(into, at, &[count, size]),
    }
}

/// Puts the tag and the key of one chain.
fn put_tag_row(into: &mut [u8; MOST_DATAGRAM], at: usize, tag: &WideTag, key: &Option<Key>) -> usize
    requires room { at + 65 ≤ 2048 }
    requires size { tag.now.length ≤ 32 }
    ensures next { result ≡ at + length (tag_row_text (record { tag = tag_bytes tag.now; key = key.now })) }
    ensures few { result ≤ at + 65 }
    ensures row { IsTagRow tag.now.length (record { tag = tag_bytes tag.now; key = key.now }) }
    ensures text { (text before : List ℕ) → length text ≡ at → Begins text before into.old → Begins (text ++ tag_row_text (record { tag = tag_bytes tag.now; key = key.now })) before into.new }
{
    let at = put(into, at, &tag.bytes[..tag.length as usize]);
    match key {
        None => put(into, at, &[0]),
        Some(key) => {
            let at = put(into, at, &[1]);
            put(into, at, &key.0)
        }
    }
}

/// Puts a row for each tag, with the key at its place.
fn put_tag_rows(
    into: &mut [u8; MOST_DATAGRAM],
    at: usize,
    size: u8,
    tags: &[WideTag],
    keys: &[Option<Key>],
) -> usize
    requires room { at + 65 * length tags.now ≤ 2048 }
    requires size { size ≤ 32 }
    requires each { AllByRecursion (HasLength size) tags.now }
    ensures next { result ≡ at + length (flat_map tag_row_text (rows_of tags.now keys.now)) }
    ensures rows { AllByRecursion (IsTagRow size) (rows_of tags.now keys.now) }
    ensures text { (text before : List ℕ) → length text ≡ at → Begins text before into.old → Begins (text ++ flat_map tag_row_text (rows_of tags.now keys.now)) before into.new }
{
    match tags {
        [tag, tags @ ..] => match keys {
            [key, keys @ ..] => {
                let at = put_tag_row(into, at, tag, key);
                put_tag_rows(into, at, size, tags, keys)
            }
            [] => at,
        },
        [] => at,
    }
}

/// The length of the first tag.
fn first_length(tags: &[WideTag]) -> u8
    ensures { result ≡ first_length tags.now }
{
    match tags {
        [tag, ..] => tag.length,
        [] => 0,
    }
}

/// Writes the data frame of the version with these parts: a payload of at most 1,200 bytes, and as many
/// keys as tags. Version 1 has one to four tags of 16 bytes; version 2 has one to eight tags of one length
/// from 10 to 32. It gives the frame's length, at most 1,744, and leaves the bytes after it as they are. It
/// takes no memory.
pub fn write_data(
    version: u8,
    stream: StreamId,
    name: Name,
    payload: &[u8],
    tags: &[WideTag],
    keys: &[Option<Key>],
    into: &mut [u8; MOST_DATAGRAM],
) -> usize
    requires version { IsVersion version }
    requires limit { length payload.now ≤ 1200 }
    requires some { 1 ≤ length tags.now }
    requires few { length tags.now ≤ most_chains (version_named version) }
    requires same { length keys.now ≡ length tags.now }
    requires size { IsTagLength (version_named version) (first_length tags.now) }
    requires each { AllByRecursion (HasLength (first_length tags.now)) tags.now }
    ensures length { result ≡ length (frame_text (data_frame (version_named version) stream name payload.now tags.now keys.now)) }
    ensures limits { HasLimits (data_frame (version_named version) stream name payload.now tags.now keys.now) }
    ensures text { Begins (frame_text (data_frame (version_named version) stream name payload.now tags.now keys.now)) into.old into.new }
{
    let version = version_of(version);
    let size = first_length(tags);
    let at = put(
        into,
        0,
        &data_head(version, stream, name, payload.len() as u16),
    );
    let at = put(into, at, payload);
    let at = put_counts(into, at, version, tags.len() as u8, size);
    put_tag_rows(into, at, size, tags, keys)
}

/// The fields of a row before its key.
fn key_head(chain: ChainNo, index: u32) -> [u8; 5]
    ensures bytes { result ≡ chain.0 ∷ [] ++ to_be_bytes w32 index }
    ensures index { index < 2 ^ 32 }
{
    let mut bytes = [0; 5];
    bytes[0] = chain.0;
    bytes[1..].copy_from_slice(&index.to_be_bytes());
    bytes
}

/// Puts a disclosed key with its chain and its index.
fn put_key_row(into: &mut [u8; MOST_DATAGRAM], at: usize, row: &KeyRow) -> usize
    requires { at + 37 ≤ 2048 }
    ensures next { result ≡ at + length (key_row_text row.now) }
    ensures few { result ≤ at + 37 }
    ensures row { IsKeyRow row.now }
    ensures text { (text before : List ℕ) → length text ≡ at → Begins text before into.old → Begins (text ++ key_row_text row.now) before into.new }
{
    let header = key_head(row.chain, row.index);
    let at = put(into, at, &header);
    put(into, at, &row.key.0)
}

/// Puts the rows one after the other.
fn put_key_rows(into: &mut [u8; MOST_DATAGRAM], at: usize, rows: &[KeyRow]) -> usize
    requires { at + 37 * length rows.now ≤ 2048 }
    ensures next { result ≡ at + length (flat_map key_row_text rows.now) }
    ensures rows { AllByRecursion IsKeyRow rows.now }
    ensures text { (text before : List ℕ) → length text ≡ at → Begins text before into.old → Begins (text ++ flat_map key_row_text rows.now) before into.new }
{
    match rows {
        [row, rows @ ..] => {
            let at = put_key_row(into, at, row);
            put_key_rows(into, at, rows)
        }
        [] => at,
    }
}

/// Writes the disclosure frame of the version with these rows, whose chains rise strictly: one to four rows
/// in version 1, and one to eight in version 2. It gives the frame's length, at most 311, and leaves the
/// bytes after it as they are. It takes no memory.
pub fn write_disclosure(
    version: u8,
    stream: StreamId,
    rows: &[KeyRow],
    into: &mut [u8; MOST_DATAGRAM],
) -> usize
    requires version { IsVersion version }
    requires some { 1 ≤ length rows.now }
    requires few { length rows.now ≤ most_chains (version_named version) }
    requires rise { ChainsRise rows.now }
    ensures length { result ≡ length (frame_text (keys_frame (version_named version) stream rows.now)) }
    ensures limits { HasLimits (keys_frame (version_named version) stream rows.now) }
    ensures text { Begins (frame_text (keys_frame (version_named version) stream rows.now)) into.old into.new }
{
    let at = put(into, 0, &keys_head(version_of(version), stream));
    let at = put(into, at, &[rows.len() as u8]);
    put_key_rows(into, at, rows)
}
