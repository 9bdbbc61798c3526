//! Numbers read off the start of bytes.

ghost use Rattle.std.specs.Prelude.{◌≡◌, option_map};
ghost use Rattle.std.specs.Int.{w16, w32, w64};
ghost use Rattle.tesla_base.specs.Prefix.{parse_number};

/// The number in the first 2 bytes, the highest first, and the bytes after them. `None` where there are fewer.
pub fn take_u16(bytes: &[u8]) -> Option<(u16, &[u8])>
    ensures { option_map (λ x. (x.0, x.1.now)) result ≡ parse_number w16 bytes.now }
{
    if bytes.len() < 2 {
        return None;
    }
    let (prefix, rest) = bytes.split_at(2);
    Some((u16::from_be_bytes([prefix[0], prefix[1]]), rest))
}

/// The number in the first 4 bytes, the highest first, and the bytes after them. `None` where there are fewer.
pub fn take_u32(bytes: &[u8]) -> Option<(u32, &[u8])>
    ensures { option_map (λ x. (x.0, x.1.now)) result ≡ parse_number w32 bytes.now }
{
    if bytes.len() < 4 {
        return None;
    }
    let (prefix, rest) = bytes.split_at(4);
    let number = u32::from_be_bytes([prefix[0], prefix[1], prefix[2], prefix[3]]);
    Some((number, rest))
}

/// The number in the first 8 bytes, the highest first, and the bytes after them. `None` where there are fewer.
pub fn take_u64(bytes: &[u8]) -> Option<(u64, &[u8])>
    ensures { option_map (λ x. (x.0, x.1.now)) result ≡ parse_number w64 bytes.now }
{
    if bytes.len() < 8 {
        return None;
    }
    let (prefix, rest) = bytes.split_at(8);
    let number = u64::from_be_bytes([
        prefix[0], prefix[1], prefix[2], prefix[3], prefix[4], prefix[5], prefix[6], prefix[7],
    ]);
    Some((number, rest))
}
