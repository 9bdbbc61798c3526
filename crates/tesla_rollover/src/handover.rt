//! The payload that names the setup of the stream that comes next.

ghost use Rattle.std.specs.Prelude.{◌≡◌, option_copied};
ghost use Rattle.tesla_rollover.specs.Handover.{handover_mark, handover_text};

/// The bytes that a handover payload begins with: `TNXT`, and 1 for this form. The text of a setup stands behind them.
pub const HANDOVER_MARK: &[u8; 5] = b"TNXT\x01";

/// The text behind the mark, where the payload begins with it. It takes no memory.
pub fn handover_text(payload: &[u8]) -> Option<&[u8]>
    ensures { option_copied result ≡ handover_text payload.now }
{
    payload.strip_prefix(HANDOVER_MARK)
}
