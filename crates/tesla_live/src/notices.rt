//! When a difference of the clocks is told.

use std::sync::atomic::AtomicU64;
use std::sync::atomic::Ordering::SeqCst;

/// By how many microseconds the system's clock and the steady one may differ before it is told.
pub(crate) const DIFFERENCE: u64 = 1_000_000;
/// After how many microseconds it is told again.
const AGAIN: u64 = 60_000_000;

/// What the clocks of one run remember of what was told.
#[derive(Drop)]
pub(crate) struct Notices {
    // When it was told last, in microseconds since the machine's start, at least 1; 0 where the clocks agreed since then.
    told: AtomicU64,
}

impl Notices {
    /// Nothing was told yet.
    pub(crate) fn new() -> Notices {
        Notices {
            told: AtomicU64::new(0),
        }
    }

    /// Whether a difference is to be told now: it wasn't there before, or was told a minute ago. Of several clocks that ask
    /// at once, one is answered so.
    pub(crate) fn is_due(&self, differs: bool, since_boot: u64) -> bool {
        let told = self.told.load(SeqCst);
        if !differs {
            if told != 0 {
                self.told.store(0, SeqCst);
            }
            return false;
        }
        if told != 0 && since_boot < told.saturating_add(AGAIN) {
            return false;
        }
        let now = since_boot.max(1);
        self.told
            .compare_exchange(told, now, SeqCst, SeqCst)
            .is_ok()
    }
}
