//! A packet whose keys are taken is judged, and held if there is room.

ghost use Rattle.std.specs.Prelude.{◌≡◌, ℕ, ◌++◌, ◌∷◌, [], ◌<◌, ◌≤◌, ◌==◌, ◌||◌, length, map, filter, Bool, List, false};
ghost use Rattle.tesla_frame.specs.Frame.{Data};
ghost use Rattle.tesla_keys.specs.Tip.{Tip};
ghost use Rattle.tesla_state.specs.declared.report.Report.{Report};
ghost use Rattle.tesla_fitting.specs.declared.verdict.Verdict.TheVariants.{Kept};
ghost use Rattle.tesla_state.specs.Judged.{verdict_by};
ghost use Rattle.tesla_state.specs.Kept.{state_of};
ghost use Rattle.tesla_state.specs.Steps.{judged_packet, safe_by, own};
ghost use Rattle.tesla_state.specs.Stored.{holding_at, is_named, is_of};

use crate::Store;
use crate::judging::safe_by;
use tesla_base::Name;
use tesla_fitting::{Config, Verdict};
use tesla_frame::DataView;
use tesla_keys::Verifier;

// Whether no packet of the interval can be held. While fewer packets are held than the quota, those of the interval
// aren't counted.
fn is_full(config: &Config, store: &Store, interval: u32) -> bool
    requires { store.now.capacity ≡ config.now.capacity }
    ensures room { result ≡ false → length store.now.held < store.now.capacity }
    ensures value { result ≡ (length store.now.held == config.now.capacity || length (filter (is_of interval) store.now.held) == config.now.quota) }
{
    let held = store.held();
    if held == config.capacity {
        return true;
    }
    if held < config.quota {
        return false;
    }
    store.held_in(interval) == config.quota
}

// The verdict on a packet of which these chains are safe.
fn judge(config: &Config, store: &Store, set: u8, name: Name) -> Verdict
    requires { store.now.capacity ≡ config.now.capacity }
    ensures room { (chains : ℕ) → result ≡ Kept chains → length store.now.held < store.now.capacity }
    ensures value { result ≡ verdict_by config.now.capacity config.now.quota set (is_named store.now.held name) (length store.now.held) (length (filter (is_of name.interval) store.now.held)) }
{
    if set == 0 {
        return Verdict::Late;
    }
    if store.is_released(name) {
        return Verdict::Repeat;
    }
    if is_full(config, store, name.interval) {
        return Verdict::Full;
    }
    Verdict::Kept { chains: set }
}

// Holds the packet of a frame, of which these chains are safe.
fn hold(store: &mut Store, order: u64, chains: u8, frame: &DataView<'_>)
    requires room { length store.old.held < store.old.capacity }
    requires rows { length frame.now.rows ≡ store.old.chains }
    ensures capacity { store.new.capacity ≡ store.old.capacity }
    ensures reserved { store.new.reserved ≡ store.old.reserved }
    ensures chains { store.new.chains ≡ store.old.chains }
    ensures held { map holding_at store.new.held ≡ map holding_at store.old.held ++ own order (Kept chains) (Data frame.now) }
    ensures waiting { store.new.waiting ≡ store.old.waiting }
    ensures given { store.new.given ≡ store.old.given }
{
    store.put(order, chains, frame);
}

/// Judges a data frame whose keys are taken, and holds its packet if it is kept. So many arrivals came before it.
pub fn keep(
    config: &Config,
    tips: &[Verifier],
    store: &mut Store,
    order: u64,
    bound: Option<u64>,
    frame: &DataView<'_>,
) -> Verdict
    requires tips { length tips.now ≡ length config.now.setup.rows }
    requires capacity { store.old.capacity ≡ config.now.capacity }
    requires chains { store.old.chains ≡ length config.now.setup.rows }
    requires rows { length frame.now.rows ≡ length config.now.setup.rows }
    ensures verdict { (ended : List Bool) (counts : Report) (calls reserved : ℕ) → let s = state_of config.now tips.now store.old ended counts calls reserved in
        result ≡ judged_packet s (safe_by s bound frame.now.name.interval) frame.now }
    ensures held { map holding_at store.new.held ≡ map holding_at store.old.held ++ own order result (Data frame.now) }
    ensures capacity { store.new.capacity ≡ store.old.capacity }
    ensures reserved { store.new.reserved ≡ store.old.reserved }
    ensures chains { store.new.chains ≡ store.old.chains }
    ensures waiting { store.new.waiting ≡ store.old.waiting }
    ensures given { store.new.given ≡ store.old.given }
{
    let name = frame.name();
    let set = safe_by(config, tips, bound, name.interval);
    let verdict = judge(config, store, set, name);
    if let Verdict::Kept { chains } = verdict {
        hold(store, order, chains, frame);
    }
    verdict
}
