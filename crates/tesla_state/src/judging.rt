//! Verdicts that need no held packet.

ghost use Rattle.std.specs.Prelude.{◌≡◌, ◌+◌, ◌-◌, ◌<◌, ◌≤◌, ◌^◌, [], length, is_some, true, IfNone, vec_capacity};
ghost use Rattle.tesla_clock.specs.Safe.{is_safe};
ghost use Rattle.tesla_frame.specs.Shown.{shown};
ghost use Rattle.tesla_fitting.specs.Config.{chain_row};
ghost use Rattle.tesla_fitting.specs.Rows.{keys_of};
ghost use Rattle.tesla_walks.specs.Offered.{HaveBegun, gaps};
ghost use Rattle.tesla_state.specs.State.{State};
ghost use Rattle.tesla_state.specs.Steps.{refused, safe_by};
ghost use Rattle.tesla_walks.specs.Tips.{tip_at};
ghost use Rattle.tesla_fitting.specs.Fitting.{unfit};

use std::sync::ledger::Ledger;
use tesla_base::Steps;
use tesla_fitting::{Config, Verdict, chain_row, unfit};
use tesla_frame::FrameView;
use tesla_keys::Verifier;
use tesla_walks::{Walk, offer_keys};

/// Why a frame is refused before its keys are taken: `Foreign`, `Misfit`, `Future` or `BadKey`, the first that applies.
/// Where it isn't, `walks` has a walk for each of its keys that is newer than the newest of its chain.
///
/// No memory is taken: `walks` is empty, with room for eight. No step is counted where the frame is refused before its
/// keys are looked at, and else those from the newer keys down to the newest, up to the first that isn't good.
pub fn refused<L: Ledger>(
    config: &Config,
    tips: &[Verifier],
    bound: Option<u64>,
    frame: &FrameView<'_>,
    walks: &mut Vec<Walk>,
    steps: &mut Steps<L>,
) -> Option<Verdict>
    requires tips { length tips.now ≡ length config.now.setup.rows }
    requires empty { walks.old.items ≡ [] }
    requires room { 8 ≤ vec_capacity walks.old }
    ensures value { (s : State) → s.config ≡ config.now → s.tips ≡ tips.now → result ≡ refused s bound (shown frame.now) }
    ensures begun { IfNone result (HaveBegun tips.now (keys_of config.now (shown frame.now)) walks.new.items) }
    ensures capacity { vec_capacity walks.new ≡ vec_capacity walks.old }
    ensures free { is_some (unfit config.now bound (shown frame.now)) ≡ true → steps.new ≡ steps.old }
    ensures most { steps.new ≤ steps.old + gaps tips.now (keys_of config.now (shown frame.now)) }
    ensures cost { IfNone result (steps.new ≡ steps.old + gaps tips.now (keys_of config.now (shown frame.now))) }
{
    if let Some(verdict) = unfit(config, bound, frame) {
        return Some(verdict);
    }
    let Some(chain) = offer_keys(config, tips, frame, walks, steps) else {
        return None;
    };
    Some(Verdict::BadKey { chain })
}

/// Whether a chain that there is is safe for an interval. It is judged alone, so no list of delays is made.
fn is_safe(config: &Config, tips: &[Verifier], bound: u64, interval: u32, chain: u8) -> bool
    requires { chain < length tips.now }
    ensures { result ≡ is_safe bound interval (chain_row config.now chain).delay (tip_at tips.now chain).index }
{
    let (newest, _) = tips[usize::from(chain)].newest();
    let delay = chain_row(config, chain).delay;
    config
        .setup
        .schedule()
        .safe_chains(bound, interval, &[delay], &[newest])
        == 1
}

/// The chains that are safe for an interval (RFC 4082, section 3.5), as a set of bits.
pub fn safe_by(config: &Config, tips: &[Verifier], bound: Option<u64>, interval: u32) -> u8
    requires tips { length tips.now ≡ length config.now.setup.rows }
    ensures { (s : State) → s.config ≡ config.now → s.tips ≡ tips.now → result ≡ safe_by s bound interval }
{
    let Some(bound) = bound else {
        return 0;
    };
    let mut set = 0;
    for chain in 0..config.setup.count() {
        if is_safe(config, tips, bound, interval, chain) {
            set += 1 << chain;
        }
    }
    set
}
