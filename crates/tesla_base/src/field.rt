//! Numbers in big-endian fields.

ghost use Rattle.std.specs.Prelude.{◌≡◌};
ghost use Rattle.std.specs.Int.{w16, w32, w64};
ghost use Rattle.tesla_base.specs.Field.{number_at};

/// The number in the 2 bytes from `at` on, the highest first. `None` where fewer stand there.
pub fn u16_at(bytes: &[u8], at: usize) -> Option<u16>
    ensures { result ≡ number_at w16 bytes.now at }
{
    match bytes.get(at..) {
        Some([a, b, ..]) => Some(u16::from_be_bytes([*a, *b])),
        _ => None,
    }
}

/// The number in the 4 bytes from `at` on, the highest first. `None` where fewer stand there.
pub fn u32_at(bytes: &[u8], at: usize) -> Option<u32>
    ensures { result ≡ number_at w32 bytes.now at }
{
    match bytes.get(at..) {
        Some([a, b, c, d, ..]) => Some(u32::from_be_bytes([*a, *b, *c, *d])),
        _ => None,
    }
}

/// The number in the 8 bytes from `at` on, the highest first. `None` where fewer stand there.
pub fn u64_at(bytes: &[u8], at: usize) -> Option<u64>
    ensures { result ≡ number_at w64 bytes.now at }
{
    match bytes.get(at..) {
        Some([a, b, c, d, e, f, g, h, ..]) => {
            Some(u64::from_be_bytes([*a, *b, *c, *d, *e, *f, *g, *h]))
        }
        _ => None,
    }
}
