//! An arrival: it is judged, its keys are taken, and its packet is held if it is kept.

ghost use Rattle.std.specs.Prelude.{◌≡◌, ◌*◌, ℕ, ◌+◌, ◌++◌, ◌≤◌, All, Bool, List, length, map, option_copied, option_map, vec_capacity};
ghost use Rattle.tesla_clock.specs.Schedule.{bound_of};
ghost use Rattle.tesla_frame.specs.Frame.{Data, DataFrame};
ghost use Rattle.tesla_frame.specs.Reading.{frame_of};
ghost use Rattle.tesla_frame.specs.Shown.{shown};
ghost use Rattle.tesla_state.specs.declared.report.Report.{Report};
ghost use Rattle.tesla_base.specs.declared.names.ChainNo.{ChainNo};
ghost use Rattle.tesla_fitting.specs.declared.verdict.Verdict.TheVariants.{BadKey};
ghost use Rattle.tesla_state.specs.Costs.{most_by, offers_by};
ghost use Rattle.tesla_walks.specs.Proved.{RiseBy};
ghost use Rattle.tesla_state.specs.Gathering.{order_of};
ghost use Rattle.tesla_fitting.specs.Rows.{keys_of};
ghost use Rattle.tesla_state.specs.Kept.{state_in, IsBefore};
ghost use Rattle.tesla_walks.specs.Offered.{HaveBegun};
ghost use Rattle.tesla_state.specs.Steps.{judged, judged_taken, with_keys, new_rows, own, counted, after_arrival};
ghost use Rattle.tesla_walks.specs.Walking.{rows_of, left, pairs};
ghost use Rattle.tesla_state.specs.Stored.{holding_at, AreNeeded};

use crate::holding::keep;
use crate::judging::refused;
use crate::keys::take_keys;
use crate::tables::Tables;
use std::sync::ledger::Ledger;
use tesla_base::Steps;
use tesla_fitting::{Config, Verdict};
use tesla_frame::FrameView;

// Takes the keys of a frame that isn't refused, then judges it, and holds its packet if it is kept. So many arrivals
// came before it.
fn accept<L: Ledger>(
    tables: &mut Tables,
    order: u64,
    bound: Option<u64>,
    frame: &FrameView<'_>,
    steps: &mut Steps<L>,
) -> Verdict
    requires tips { length tables.old.tips.items ≡ length tables.old.config.setup.rows }
    requires chains { tables.old.store.chains ≡ length tables.old.config.setup.rows }
    requires capacity { tables.old.store.capacity ≡ tables.old.config.capacity }
    requires orders { RiseBy order_of (map holding_at tables.old.store.held) }
    requires before { All (IsBefore order) (map holding_at tables.old.store.held) }
    requires needed { AreNeeded tables.old.config tables.old.tips.items tables.old.store.held }
    requires begun { HaveBegun tables.old.tips.items (keys_of tables.old.config (shown frame.now)) tables.old.walks.items }
    requires room { tables.old.config.capacity ≤ vec_capacity tables.old.batch }
    requires rows { (f : DataFrame) → shown frame.now ≡ Data f → length f.rows ≡ length tables.old.config.setup.rows }
    ensures verdict { (ended : List Bool) (counts : Report) (calls reserved : ℕ) → let s = state_in tables.old ended counts calls reserved in
        result ≡ judged_taken (with_keys s (new_rows s (shown frame.now))) bound (shown frame.now) }
    ensures state { (ended : List Bool) (counts : Report) (calls reserved : ℕ) → let s = with_keys (state_in tables.old ended counts calls reserved) (new_rows (state_in tables.old ended counts calls reserved) (shown frame.now)) in
        state_in tables.new ended counts calls reserved ≡ record s { held = s.held ++ own order result (shown frame.now) } }
    ensures tips { length tables.new.tips.items ≡ length tables.old.tips.items }
    ensures tips_room { vec_capacity tables.new.tips ≡ vec_capacity tables.old.tips }
    ensures eight { vec_capacity tables.new.walks ≡ vec_capacity tables.old.walks }
    ensures orders { RiseBy order_of (map holding_at tables.new.store.held) }
    ensures before { All (IsBefore (order + 1)) (map holding_at tables.new.store.held) }
    ensures needed { AreNeeded tables.new.config tables.new.tips.items tables.new.store.held }
    ensures config { tables.new.config ≡ tables.old.config }
    ensures capacity { tables.new.store.capacity ≡ tables.old.store.capacity }
    ensures reserved { tables.new.store.reserved ≡ tables.old.store.reserved }
    ensures chains { tables.new.store.chains ≡ tables.old.store.chains }
    ensures given { tables.new.store.given ≡ tables.old.store.given }
    ensures room { vec_capacity tables.new.batch ≡ vec_capacity tables.old.batch }
    ensures cost { steps.new ≤ steps.old + left tables.old.tips.items tables.old.walks.items + 2 * pairs tables.old.config tables.old.tips.items (rows_of tables.old.walks.items) (map holding_at tables.old.store.held) }
{
    take_keys(
        &tables.config,
        &mut tables.tips,
        &mut tables.store,
        &mut tables.walks,
        &mut tables.batch,
        steps,
    );
    match frame {
        FrameView::Disclosure(_) => Verdict::Keys,
        FrameView::Data(data) => keep(
            &tables.config,
            &tables.tips,
            &mut tables.store,
            order,
            bound,
            data,
        ),
    }
}

// The last interval that the sender may be in at a reading (RFC 4082, section 3.5).
fn bound_at(config: &Config, reading: u64) -> Option<u64>
    ensures { result ≡ bound_of config.now.setup.times config.now.lag reading }
{
    config.setup.schedule().bound(reading, config.lag)
}

/// Judges a datagram, that was read as this frame or as none, with the reading of the receiver's clock in microseconds,
/// takes its keys, and holds its packet if it is kept. So many arrivals came before it. It takes no memory. The counted steps are at most two for each
/// interval from a newer key down to the newest of its chain, and two for each held packet that isn't released and each
/// chain on which it is tried.
pub fn receive<L: Ledger>(
    tables: &mut Tables,
    order: u64,
    reading: u64,
    bytes: &[u8],
    frame: Option<&FrameView<'_>>,
    steps: &mut Steps<L>,
) -> Verdict
    requires read { option_map shown (option_copied frame) ≡ frame_of bytes.now }
    requires tips { length tables.old.tips.items ≡ length tables.old.config.setup.rows }
    requires chains { tables.old.store.chains ≡ length tables.old.config.setup.rows }
    requires capacity { tables.old.store.capacity ≡ tables.old.config.capacity }
    requires orders { RiseBy order_of (map holding_at tables.old.store.held) }
    requires before { All (IsBefore order) (map holding_at tables.old.store.held) }
    requires needed { AreNeeded tables.old.config tables.old.tips.items tables.old.store.held }
    requires eight { 8 ≤ vec_capacity tables.old.walks }
    requires room { tables.old.config.capacity ≤ vec_capacity tables.old.batch }
    ensures verdict { (ended : List Bool) (counts : Report) (calls reserved : ℕ) →
        result ≡ judged (state_in tables.old ended counts calls reserved) reading bytes.now }
    ensures state { (ended : List Bool) (counts : Report) (calls reserved : ℕ) → counts.arrivals ≡ order →
        state_in tables.new ended (counted result counts) (calls + 1) reserved ≡ after_arrival (state_in tables.old ended counts calls reserved) reading bytes.now }
    ensures tips { length tables.new.tips.items ≡ length tables.old.tips.items }
    ensures tips_room { vec_capacity tables.new.tips ≡ vec_capacity tables.old.tips }
    ensures orders { RiseBy order_of (map holding_at tables.new.store.held) }
    ensures before { All (IsBefore (order + 1)) (map holding_at tables.new.store.held) }
    ensures needed { AreNeeded tables.new.config tables.new.tips.items tables.new.store.held }
    ensures config { tables.new.config ≡ tables.old.config }
    ensures capacity { tables.new.store.capacity ≡ tables.old.store.capacity }
    ensures reserved { tables.new.store.reserved ≡ tables.old.store.reserved }
    ensures chains { tables.new.store.chains ≡ tables.old.store.chains }
    ensures given { tables.new.store.given ≡ tables.old.store.given }
    ensures eight { vec_capacity tables.new.walks ≡ vec_capacity tables.old.walks }
    ensures room { vec_capacity tables.new.batch ≡ vec_capacity tables.old.batch }
    ensures cost { (ended : List Bool) (counts : Report) (calls reserved : ℕ) →
        steps.new ≤ steps.old + most_by (state_in tables.old ended counts calls reserved) reading bytes.now }
    ensures badkey { (ended : List Bool) (counts : Report) (calls reserved : ℕ) (chain : ChainNo) → result ≡ BadKey chain →
        steps.new ≤ steps.old + offers_by (state_in tables.old ended counts calls reserved) bytes.now }
{
    let _ = bytes;
    let Some(frame) = frame else {
        return Verdict::Malformed;
    };
    let bound = bound_at(&tables.config, reading);
    tables.walks.clear();
    if let Some(verdict) = refused(
        &tables.config,
        &tables.tips,
        bound,
        frame,
        &mut tables.walks,
        steps,
    ) {
        return verdict;
    }
    accept(tables, order, bound, frame, steps)
}
