//! What becomes of a key that is offered.

use tesla_base::Key;

/// The answer to an offered key. Its `Debug` text shows no byte of a key.
#[derive(Clone, Copy, Debug, PartialEq, Eq)]
pub enum Offer {
    /// The key's index isn't above that of the newest key; the key wasn't looked at.
    Old,
    /// The key walks to the newest key, over this many intervals.
    Good { gap: u32 },
    /// The key walks to this other key in place of the newest one.
    Bad { walked: Key },
}
