//! The rows of a frame, found in its bytes and read there.

ghost use Rattle.std.specs.Prelude.{◌≡◌, ℕ, ◌+◌, ◌*◌, ◌<◌, ◌≤◌, map, take, drop, length, slice_index, option_map, IfSome};
ghost use Rattle.tesla_frame.specs.Reading.{rows_at, tag_row_at, chains_rise};
ghost use Rattle.tesla_frame.specs.View.{key_in, optional_key_in, tag_row_in, IsRowAt, AreRowsAt, key_row_in, key_rows_in};

use crate::row::KeyRow;
use tesla_base::{ChainNo, KEY_BYTES, Key};

/// How many bytes a row of a disclosure frame has.
pub const KEY_ROW: usize = 37;

/// The key in the first bytes.
fn key_of(bytes: &[u8]) -> Key
    requires { 32 ≤ length bytes.now }
    ensures { result ≡ key_in bytes.now }
{
    let mut key = [0; KEY_BYTES];
    key.copy_from_slice(&bytes[..KEY_BYTES]);
    Key(key)
}

/// The key behind a flag, where that is 1.
pub fn optional_key_of(bytes: &[u8]) -> Option<Key>
    requires { slice_index bytes.now 0 ≡ 1 → 33 ≤ length bytes.now }
    ensures { result ≡ optional_key_in bytes.now }
{
    match bytes {
        [1, rest @ ..] => Some(key_of(rest)),
        _ => None,
    }
}

/// The place after the row that begins at a place. `None` where no row stands there whole.
fn row_end(size: u8, bytes: &[u8], at: usize) -> Option<usize>
    requires { at ≤ length bytes.now }
    ensures exact { option_map (λ next. (tag_row_in size bytes.now at, drop next bytes.now)) result ≡ tag_row_at size (drop at bytes.now) }
    ensures row { IfSome result (λ next. IsRowAt size bytes.now at) }
    ensures most { IfSome result (λ next. next ≤ at + size + 33) }
    ensures within { IfSome result (λ next. next ≤ length bytes.now) }
{
    let flag = at + size as usize;
    if bytes.len() <= flag {
        return None;
    }
    match bytes[flag] {
        0 => Some(flag + 1),
        1 => {
            if bytes.len() < flag + 33 {
                None
            } else {
                Some(flag + 33)
            }
        }
        _ => None,
    }
}

/// The places where so many rows of a data frame begin, and the place after the last. Places behind them are 0.
pub fn row_starts(size: u8, count: u8, bytes: &[u8]) -> Option<([u16; 8], usize)>
    requires size { size ≤ 32 }
    requires few { count ≤ 8 }
    ensures exact { option_map (λ x. (map (tag_row_in size bytes.now) (take count x.0), drop x.1 bytes.now)) result ≡ rows_at (tag_row_at size) count bytes.now }
    ensures room { IfSome result (λ x. length x.0 ≡ 8) }
    ensures rows { IfSome result (λ x. AreRowsAt size bytes.now count x.0) }
    ensures within { IfSome result (λ x. x.1 ≤ length bytes.now) }
{
    let mut starts = [0; 8];
    let mut at = 0;
    for place in 0..count {
        let Some(next) = row_end(size, bytes, at) else {
            return None;
        };
        starts[place as usize] = at as u16;
        at = next;
    }
    Some((starts, at))
}

/// The row of a disclosure frame in the first bytes.
pub fn key_row_of(bytes: &[u8]) -> KeyRow
    requires { 37 ≤ length bytes.now }
    ensures { result ≡ key_row_in bytes.now }
{
    KeyRow {
        chain: ChainNo(bytes[0]),
        index: u32::from_be_bytes([bytes[1], bytes[2], bytes[3], bytes[4]]),
        key: key_of(&bytes[5..]),
    }
}

/// Whether each chain's number is above the one before, in so many rows of a disclosure frame.
pub fn do_chains_rise(count: u8, bytes: &[u8]) -> bool
    requires { 37 * count ≤ length bytes.now }
    ensures { result ≡ chains_rise (key_rows_in count bytes.now) }
{
    if count < 2 {
        return true;
    }
    bytes[0] < bytes[KEY_ROW] && do_chains_rise(count - 1, &bytes[KEY_ROW..])
}
