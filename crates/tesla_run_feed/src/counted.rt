//! A feed that is open, with its counts written to STATUS meanwhile, where there is one.

ghost use Rattle.std.specs.Prelude.{◌≡◌, ◌*◌, ◌++◌, ◌≤◌, ℕ, List, IfErr, IfOk, Some, [], false, length, map, option_map, true};
ghost use Rattle.tesla_desk.specs.Faults.{HasCause};
ghost use Rattle.tesla_feed.specs.Due.{AreUnsent};
ghost use Rattle.tesla_feeds.specs.Due.{MaySendDue};
ghost use Rattle.tesla_feeds.specs.Opening.{streams_fed};
ghost use Rattle.tesla_front.specs.OutcomeView.{result_view, stop_view};
ghost use Rattle.tesla_relay.specs.Opened.{post_name};
ghost use Rattle.tesla_relay.specs.Posts.{PostSeen};
ghost use Rattle.tesla_run_feed.specs.Arguments.{status_of};
ghost use Rattle.tesla_run_feed.specs.Due.{MayWriteCounts};
ghost use Rattle.tesla_run_feed.specs.Feeding.{LackSenders};
ghost use Rattle.tesla_run_feed.specs.Listing.{is_right_stream, streams_in};
ghost use Rattle.tesla_run_feed.specs.Steps.{FeedsPosts, FeedsReady, IsReady, RefusesStatus, WritesStatus, no_telling, streams_ready};
ghost use Rattle.tesla_run_feed.specs.declared.telling.Telling.{Telling};

use crate::arguments::StatusWords;
use crate::beside::{FedBeside, feed_beside};
use crate::later::Later;
use crate::lines::lines_after;
use crate::ready::ReadyList;
use crate::telling::{StatusNotes, Telling};
use std::marker::{Brand, PhantomData};
use std::sync::Wait;
use std::thread::Threads;
use tesla_desk::{Incidents, Observed, Output};
use tesla_feeds::{FeedsCounts, FeedsEnd, NoNotes, Notes};
use tesla_front::{Fault, Lines, Stop};
use tesla_status::Status;

/// What counts are told by. It is named, so that whoever was told notes is known to go by it.
pub(crate) trait ToldBy {
    ghost telling: { Telling };
}

impl ToldBy for Brand {
    ghost telling = { no_telling };
}

/// What writes the counts of a feed to STATUS, known to go by this.
pub(crate) struct KnownNotes<S: Output, I: Incidents + Drop, T: ToldBy> {
    notes: StatusNotes<S, I>,
    by: PhantomData<T>,
}

impl<S: Output, I: Incidents + Drop, T: ToldBy> Notes for KnownNotes<S, I, T> {
    ghost use Rattle.std.specs.Prelude.{◌≡◌, false, true};
    ghost use Rattle.tesla_run_feed.specs.Status.{HasLines, has_line, time_line};
    ghost use Rattle.tesla_run_feed.specs.declared.line.SystemCounts.{SystemCounts};
    ghost use Rattle.tesla_run_feed.specs.declared.telling.Telling.{Telling};

    type Fixed = Telling;

    ghost fixed = { λ it. record { schedules = it.notes.schedules.items; opening = it.notes.opening; every = it.notes.due.every; name = S.name it.notes.status.sink } };

    ghost was_told = { λ it notes. (record { schedules = it.notes.schedules.items; opening = it.notes.opening; every = it.notes.due.every; name = S.name it.notes.status.sink } ≡ T.telling)
        × HasLines it.notes.schedules.items it.notes.due.every it.notes.opening it.notes.due.since it.notes.last notes (S.written it.notes.status.sink) (S.faults it.notes.status.sink) it.notes.status.failed };

    ghost may_note = { λ it note. it.notes.status.failed ≡ false → has_line it.notes.due.every it.notes.due.since note.reading ≡ true → (system : SystemCounts) → S.may_write it.notes.status.sink (time_line it.notes.schedules.items system note) ≡ true };

    fn note(&mut self, reading: u64, counts: &FeedsCounts) -> u64 {
        self.notes.tell(reading, counts)
    }
}

// What a feed came to, whether STATUS failed, and what a lacking sender comes to.
struct CountedEnd {
    end: FeedsEnd,
    status_failed: bool,
    lack: Stop,
}

// Opens STATUS, feeds an open link to open posts, whose counts are written to it meanwhile, and closes it behind its
// last line. `Err`: it wasn't opened, and nothing else was done.
fn feed_counted<T: ToldBy + Send, X: Later + Send + Sync, R: Threads + Wait + Sync, D: Observed>(
    rt: &R,
    ready: ReadyList<D::Time, D::Pause>,
    status: &StatusWords<'_>,
    link: &mut D::Wire,
    desk: &mut D,
    posts: &mut Vec<D::Port>,
) -> Result<CountedEnd, Fault>
    requires later { X.streams ≡ streams_in ready.later.list }
    requires by { T.telling ≡ record { schedules = ready.schedules.items; opening = ready.feed.opened.opening; every = status.now.every * 1000000; name = status.now.output.now } }
    requires ready { IsReady ready.feed.opened ready.later.list }
    requires streams { length ready.schedules.items ≤ 16 }
    requires few { length posts.old.items ≤ 32 }
    requires opening { D.Time.gave ready.feed.opened.opening ≡ true }
    requires none { D.Wire.has_brought link.old 0 ≡ true }
    requires unsent { let seen : D.Port → PostSeen = λ post. record { name = D.Port.name post; sent = D.Port.sent post; faults = D.Port.faults post } in
        AreUnsent (map seen posts.old.items) }
    requires asks { (number : ℕ) (bytes : List ℕ) → D.Wire.brought number bytes ≡ true → D.Time.may_ask number bytes ≡ true }
    requires any_link { (link : D.Wire) → D.Wire.may_ask link ≡ true }
    requires due { let seen : D.Port → PostSeen = λ post. record { name = D.Port.name post; sent = D.Port.sent post; faults = D.Port.faults post } in
        MaySendDue is_right_stream seen D.Port.may_send D.Time.gave D.Time.read_for (map post_name (map seen posts.old.items)) (streams_fed ready.feed.opened.feeders ++ X.streams) }
    requires counted { MayWriteCounts D.Pieces.name D.Pieces.written D.Pieces.may_write D.Time.gave D.Time.read_for (Some (status_of status.now)) ready.schedules.items (streams_fed ready.feed.opened.feeders ++ X.streams) }
    ensures fed { let seen : List D.Port → List PostSeen = λ posts. map (λ post. record { name = D.Port.name post; sent = D.Port.sent post; faults = D.Port.faults post }) posts in
        IfOk result (λ fed. FeedsPosts is_right_stream D.Pause.over (streams_fed ready.feed.opened.feeders ++ X.streams) ready.feed.opened.opening fed.end (D.Wire.left link.old) (D.Wire.left link.new) (D.Time.told ready.feed.clock) (seen posts.old.items) (seen posts.new.items)
        (WritesStatus (Some (status_of status.now)) ready.schedules.items ready.feed.opened.opening fed.end.counts (D.told desk.old) (D.told desk.new) fed.status_failed)) }
    ensures lacks { IfOk result (λ fed. fed.end.lacking ≡ true → LackSenders X.streams (stop_view fed.lack)) }
    ensures cause { IfOk result (λ fed. HasCause (D.Wire.faults link.old) (D.Wire.faults link.new) (fed.end.link_failed ≡ true)) }
    ensures link { D.Wire.name link.new ≡ D.Wire.name link.old }
    ensures refused { IfErr result (λ fault. RefusesStatus (Some (status_of status.now)) (D.told desk.old) (D.told desk.new) fault × (link.new ≡ link.old) × (posts.new ≡ posts.old)) }
{
    let sink = match desk.open_output(status.output) {
        Ok(sink) => sink,
        Err(refusal) => return Err(Fault::from(refusal)),
    };
    let ReadyList {
        feed,
        later,
        schedules,
    } = ready;
    let notes = StatusNotes::new(
        sink,
        desk.incidents(),
        schedules,
        status.every,
        feed.opened.opening,
    );
    let known = KnownNotes {
        notes,
        by: PhantomData,
    };
    let fed = feed_beside::<
        X,
        R,
        D::Wire,
        D::Time,
        D::Port,
        D::Pause,
        KnownNotes<D::Pieces, D::Events, T>,
    >(rt, feed, later, known, link, posts);
    let FedBeside { end, notes, lack } = fed;
    let KnownNotes { mut notes, by: _ } = notes;
    notes.end(&end.counts);
    let Status {
        sink,
        failed: status_failed,
    } = notes.into_status();
    desk.close_output(sink);
    Ok(CountedEnd {
        end,
        status_failed,
        lack,
    })
}

/// Feeds an open link to open posts, and writes the counts to STATUS meanwhile, where there is one: it is opened before
/// and closed behind. What the feed came to; where STATUS wasn't opened, `Failed` with `Open` or `NoMemory`, and
/// nothing else was done.
pub fn feed_open<R: Threads + Wait + Sync, D: Observed>(
    rt: &R,
    ready: ReadyList<D::Time, D::Pause>,
    status: &Option<StatusWords<'_>>,
    link: &mut D::Wire,
    desk: &mut D,
    posts: &mut Vec<D::Port>,
) -> Result<Lines, Stop>
    requires ready { IsReady ready.feed.opened ready.later.list }
    requires streams { length ready.schedules.items ≤ 16 }
    requires few { length posts.old.items ≤ 32 }
    requires opening { D.Time.gave ready.feed.opened.opening ≡ true }
    requires none { D.Wire.has_brought link.old 0 ≡ true }
    requires unsent { let seen : D.Port → PostSeen = λ post. record { name = D.Port.name post; sent = D.Port.sent post; faults = D.Port.faults post } in
        AreUnsent (map seen posts.old.items) }
    requires asks { (number : ℕ) (bytes : List ℕ) → D.Wire.brought number bytes ≡ true → D.Time.may_ask number bytes ≡ true }
    requires any_link { (link : D.Wire) → D.Wire.may_ask link ≡ true }
    requires due { let seen : D.Port → PostSeen = λ post. record { name = D.Port.name post; sent = D.Port.sent post; faults = D.Port.faults post } in
        MaySendDue is_right_stream seen D.Port.may_send D.Time.gave D.Time.read_for (map post_name (map seen posts.old.items)) (streams_ready ready.feed.opened ready.later.list) }
    requires counted { MayWriteCounts D.Pieces.name D.Pieces.written D.Pieces.may_write D.Time.gave D.Time.read_for (option_map status_of status.now) ready.schedules.items (streams_ready ready.feed.opened ready.later.list) }
    ensures fed { let seen : List D.Port → List PostSeen = λ posts. map (λ post. record { name = D.Port.name post; sent = D.Port.sent post; faults = D.Port.faults post }) posts in
        FeedsReady D.Pause.over ready.schedules.items (streams_ready ready.feed.opened ready.later.list) (streams_in ready.later.list) ready.feed.opened.opening (option_map status_of status.now) (D.Wire.left link.old) (D.Wire.left link.new) (D.Wire.faults link.old) (D.Wire.faults link.new) (D.Time.told ready.feed.clock) (D.told desk.old) (D.told desk.new) (seen posts.old.items) (seen posts.new.items) (result_view result) }
    ensures link { D.Wire.name link.new ≡ D.Wire.name link.old }
{
    let several = ready.schedules.len() > 1;
    match status {
        Some(status) => {
            match feed_counted::<Brand, Brand, R, D>(rt, ready, status, link, desk, posts) {
                Ok(fed) => {
                    let CountedEnd {
                        end,
                        status_failed,
                        lack,
                    } = fed;
                    lines_after(several, end, status_failed, lack)
                }
                Err(fault) => Err(Stop::Failed(fault)),
            }
        }
        None => {
            let fed = feed_beside::<Brand, R, D::Wire, D::Time, D::Port, D::Pause, NoNotes>(
                rt,
                ready.feed,
                ready.later,
                NoNotes,
                link,
                posts,
            );
            let FedBeside {
                end,
                notes: NoNotes,
                lack,
            } = fed;
            lines_after(several, end, false, lack)
        }
    }
}
