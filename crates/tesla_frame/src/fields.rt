//! The fields of a frame, each read off the start of the bytes.

ghost use Rattle.std.specs.Prelude.{◌≡◌, ◌≤◌, length, option_map, IfSome};
ghost use Rattle.tesla_base.specs.Version.{most_chains, IsTagLength};
ghost use Rattle.tesla_frame.specs.Reading.{byte_at, byte_within, count_at, tag_length_at, payload_at};

use tesla_base::{MOST_PAYLOAD, Version, take_u16};

/// The first byte.
#[tactic(auto, unfolding(crate::specs::Reading::byte_at))]
pub fn byte_of(bytes: &[u8]) -> Option<(u8, &[u8])>
    ensures { option_map (λ x. (x.0, x.1.now)) result ≡ byte_at bytes.now }
{
    match bytes {
        [byte, rest @ ..] => Some((*byte, rest)),
        [] => None,
    }
}

/// The first byte, where it is within limits.
#[tactic(auto, unfolding(crate::specs::Reading::byte_within))]
fn byte_between(least: u8, most: u8, bytes: &[u8]) -> Option<(u8, &[u8])>
    ensures exact { option_map (λ x. (x.0, x.1.now)) result ≡ byte_within least most bytes.now }
    ensures least { IfSome result (λ x. least ≤ x.0) }
    ensures most { IfSome result (λ x. x.0 ≤ most) }
{
    let Some((byte, rest)) = byte_of(bytes) else {
        return None;
    };
    if least <= byte && byte <= most {
        Some((byte, rest))
    } else {
        None
    }
}

/// The number of rows.
pub fn count_of(version: Version, bytes: &[u8]) -> Option<(u8, &[u8])>
    ensures exact { option_map (λ x. (x.0, x.1.now)) result ≡ count_at version bytes.now }
    ensures some { IfSome result (λ x. 1 ≤ x.0) }
    ensures few { IfSome result (λ x. x.0 ≤ most_chains version) }
{
    byte_between(1, version.most_chains(), bytes)
}

/// The length of the tags, which version 1 doesn't write.
#[tactic(auto, unfolding(crate::specs::Reading::tag_length_at))]
pub fn tag_length_of(version: Version, bytes: &[u8]) -> Option<(u8, &[u8])>
    ensures exact { option_map (λ x. (x.0, x.1.now)) result ≡ tag_length_at version bytes.now }
    ensures limits { IfSome result (λ x. IsTagLength version x.0) }
{
    match version {
        Version::One => Some((version.longest_tag(), bytes)),
        Version::Two => byte_between(version.shortest_tag(), version.longest_tag(), bytes),
    }
}

/// The payload, behind its length.
#[tactic(auto, unfolding(crate::specs::Reading::payload_at))]
pub fn payload_of(bytes: &[u8]) -> Option<(&[u8], &[u8])>
    ensures exact { option_map (λ x. (x.0.now, x.1.now)) result ≡ payload_at bytes.now }
    ensures limit { IfSome result (λ x. length x.0.now ≤ 1200) }
{
    let Some((length, rest)) = take_u16(bytes) else {
        return None;
    };
    let length = length as usize;
    if MOST_PAYLOAD < length || rest.len() < length {
        return None;
    }
    Some(rest.split_at(length))
}
