//! What writes the counts while a relay runs.

ghost use Rattle.std.specs.Prelude.{◌≡◌, ◌+◌, ◌-◌, ◌≤◌, ◌++◌, [], ℕ, Some, IfOk, IfSome, drop, false, length, map, true, vec_len, vec_capacity};
ghost use Rattle.arrayvec.specs.ArrayVec.{array_vec_len};
ghost use Rattle.tesla_desk.specs.Outside.{MakesClock};
ghost use Rattle.tesla_run_relay.specs.watch.Allowed.{MayWriteTallies};
ghost use Rattle.tesla_run_relay.specs.watch.Lines.{NoneFalls, no_counts, numbers_of};
ghost use Rattle.tesla_run_relay.specs.watch.Written.{HasAllTold, HasTold};

use crate::watch::line::line_of;
use crate::watch::open::Beside;
use arrayvec::ArrayVec;
use std::alloc::Global;
use std::sync::{Arc, Wait};
use tesla_base::NoMemory;
use tesla_desk::{Clock, Incidents, Observed, Output};
use tesla_relay::{PostSide, PostTally, Relayed, SoFar};
use tesla_status::{Due, Ended, Status};

/// The most posts of a relay.
const MOST: usize = 32;

// Puts the tally of each side behind those that are there.
fn add_tallies<G>(sides: &[PostSide<G>], tallies: &mut Vec<Arc<PostTally>>) -> Result<(), NoMemory>
    requires room { vec_len tallies.old + length sides.now ≤ vec_capacity tallies.old }
    ensures len { IfOk result (λ _. vec_len tallies.new ≡ vec_len tallies.old + length sides.now) }
{
    let [side, sides @ ..] = sides else {
        return Ok(());
    };
    let tally = Arc::try_clone(&side.tally)?;
    tallies.push_reserved(tally);
    add_tallies(sides, tallies)
}

/// The tallies of these sides, in their order.
pub(crate) fn tallies_of<G>(
    alloc: Global,
    sides: &[PostSide<G>],
) -> Result<Vec<Arc<PostTally>>, NoMemory>
    ensures { IfOk result (λ tallies. vec_len tallies ≡ length sides.now) }
{
    let mut tallies = Vec::with_capacity(alloc, sides.len())?;
    add_tallies(sides, &mut tallies)?;
    Ok(tallies)
}

// Puts so many counts in which nothing was sent or dropped behind those that are there.
fn add_none(posts: usize, counts: &mut ArrayVec<SoFar, MOST>)
    requires room { array_vec_len counts.old + posts ≤ 32 }
    ensures { counts.new.items ≡ counts.old.items ++ no_counts posts }
{
    if posts == 0 {
        return;
    }
    counts.push(SoFar {
        sent: 0,
        dropped: 0,
    });
    add_none(posts - 1, counts);
}

// Puts the numbers that a relay to `posts` posts came to, from post `k` on, behind those that are there.
fn add_numbers(counts: &mut ArrayVec<SoFar, MOST>, k: u8, posts: u8, relayed: &Relayed)
    requires posts { posts ≡ length relayed.now.counts.items }
    requires within { k ≤ posts }
    requires room { array_vec_len counts.old + (posts - k) ≤ 32 }
    ensures { counts.new.items ≡ counts.old.items ++ map numbers_of (drop k relayed.now.counts.items) }
{
    if k == posts {
        return;
    }
    let count = relayed.post(k);
    counts.push(SoFar {
        sent: count.sent,
        dropped: count.dropped,
    });
    add_numbers(counts, k + 1, posts, relayed);
}

// What was told of a post, or what is read now where that is more.
fn more_of(told: SoFar, read: SoFar) -> SoFar
    ensures { (told.sent ≤ result.sent) × (told.dropped ≤ result.dropped) }
{
    SoFar {
        sent: told.sent.max(read.sent),
        dropped: told.dropped.max(read.dropped),
    }
}

// Reads the tallies, and keeps what was told where that is more.
fn raise(told: &mut [SoFar], tallies: &[Arc<PostTally>])
    ensures { NoneFalls told.old told.new }
{
    let Some((count, others)) = told.split_first_mut() else {
        return;
    };
    if let [tally, tallies @ ..] = tallies {
        *count = more_of(*count, tally.so_far());
        raise(others, tallies);
    }
}

/// The file of the counts, the clock that its lines go by, and where the counts are read.
pub(crate) struct Monitor<S: Output, C: Clock, I: Incidents> {
    pub(crate) status: Status<S>,
    pub(crate) clock: C,
    pub(crate) incidents: I,
    pub(crate) due: Due,
    // Those of the posts, in their order.
    pub(crate) tallies: Vec<Arc<PostTally>>,
    // What was told last of each post.
    pub(crate) told: ArrayVec<SoFar, MOST>,
}

/// A monitor over a new output, with a new clock, that tells what these tallies show every so many seconds.
pub(crate) fn monitor_over<D: Observed>(
    sink: D::Pieces,
    tallies: Vec<Arc<PostTally>>,
    every: u32,
    desk: &mut D,
) -> Monitor<D::Pieces, D::Time, D::Events>
    requires every { (1 ≤ every) × (every ≤ 3600) }
    requires few { vec_len tallies ≤ 32 }
    requires empty { IfSome (D.Pieces.written sink) (λ bytes. bytes ≡ []) }
    requires fresh { D.Pieces.faults sink ≡ 0 }
    ensures told { HasTold (vec_len tallies) result.told.items (D.Pieces.written result.status.sink) (D.Pieces.faults result.status.sink) result.status.failed }
    ensures name { D.Pieces.name result.status.sink ≡ D.Pieces.name sink }
    ensures desk { MakesClock (D.told desk.old) (D.told desk.new) }
{
    let mut clock = desk.clock();
    let due = Due::new(every, clock.now());
    let incidents = desk.incidents();
    let mut told = ArrayVec::new();
    add_none(tallies.len(), &mut told);
    let status = Status {
        sink,
        failed: false,
    };
    Monitor {
        status,
        clock,
        incidents,
        due,
        tallies,
        told,
    }
}

impl<S: Output, C: Clock, I: Incidents> Monitor<S, C, I> {
    // Writes a line of the counts as they are read now, at this reading of a clock.
    fn note(&mut self, now: u64)
        requires given { C.gave now ≡ true }
        requires may { (posts : ℕ) × HasTold posts self.old.told.items (S.written self.old.status.sink) (S.faults self.old.status.sink) self.old.status.failed × MayWriteTallies S.name S.written S.may_write C.gave (S.name self.old.status.sink) posts }
        ensures told { (posts : ℕ) → HasTold posts self.old.told.items (S.written self.old.status.sink) (S.faults self.old.status.sink) self.old.status.failed → HasTold posts self.new.told.items (S.written self.new.status.sink) (S.faults self.new.status.sink) self.new.status.failed }
        ensures name { S.name self.new.status.sink ≡ S.name self.old.status.sink }
    {
        raise(self.told.as_mut_slice(), self.tallies.as_slice());
        let unsent = self.incidents.unsent();
        self.status
            .put(&line_of("time=", now, self.told.as_slice(), unsent));
    }

    /// Writes a line whenever one is due, until the relay has ended. It rests between, a second at most.
    pub(crate) fn watch<R: Wait>(&mut self, rt: &R, ended: &Ended)
        requires may { (posts : ℕ) × HasTold posts self.old.told.items (S.written self.old.status.sink) (S.faults self.old.status.sink) self.old.status.failed × MayWriteTallies S.name S.written S.may_write C.gave (S.name self.old.status.sink) posts }
        ensures told { (posts : ℕ) → HasTold posts self.old.told.items (S.written self.old.status.sink) (S.faults self.old.status.sink) self.old.status.failed → HasTold posts self.new.told.items (S.written self.new.status.sink) (S.faults self.new.status.sink) self.new.status.failed }
        ensures name { S.name self.new.status.sink ≡ S.name self.old.status.sink }
    {
        for _ in rt.forever() {
            if ended.is_set() {
                return;
            }
            let now = self.clock.now();
            if self.due.is_due(now) {
                self.note(now);
            }
            ended.rest(rt, self.due.rest_at(now));
        }
        unreachable!()
    }

    /// Writes the last line, with the numbers that the relay came to.
    pub(crate) fn end(&mut self, relayed: &Relayed, posts: u8)
        requires posts { posts ≡ length relayed.now.counts.items }
        requires few { posts ≤ 32 }
        requires may { HasTold posts self.old.told.items (S.written self.old.status.sink) (S.faults self.old.status.sink) self.old.status.failed × MayWriteTallies S.name S.written S.may_write C.gave (S.name self.old.status.sink) posts }
        ensures told { HasAllTold posts (Some relayed.now.counts.items) (S.written self.new.status.sink) (S.faults self.new.status.sink) self.new.status.failed }
        ensures name { S.name self.new.status.sink ≡ S.name self.old.status.sink }
    {
        let mut counts = ArrayVec::new();
        add_numbers(&mut counts, 0, posts, relayed);
        let now = self.clock.now();
        let unsent = self.incidents.unsent();
        self.status
            .put(&line_of("end=", now, counts.as_slice(), unsent));
    }
}

impl<S: Output, C: Clock + Drop, I: Incidents + Drop> Monitor<S, C, I> {
    /// The output, and whether it failed.
    pub(crate) fn into_status(self) -> Status<S>
        ensures { result ≡ self.status }
    {
        let Monitor {
            status,
            clock: _,
            incidents: _,
            due: _,
            tallies: _,
            told: _,
        } = self;
        status
    }
}

impl<S: Output, C: Clock, I: Incidents> Beside for Monitor<S, C, I> {
    ghost use Rattle.std.specs.Prelude.{◌≡◌, ℕ};
    ghost use Rattle.tesla_run_relay.specs.watch.Allowed.{MayWriteTallies};
    ghost use Rattle.tesla_run_relay.specs.watch.Written.{HasTold};

    ghost may_run = { λ it. (posts : ℕ) × HasTold posts it.told.items (S.written it.status.sink) (S.faults it.status.sink) it.status.failed × MayWriteTallies S.name S.written S.may_write C.gave (S.name it.status.sink) posts };

    ghost did = { λ old new. ((posts : ℕ) → HasTold posts old.told.items (S.written old.status.sink) (S.faults old.status.sink) old.status.failed → HasTold posts new.told.items (S.written new.status.sink) (S.faults new.status.sink) new.status.failed) × (S.name new.status.sink ≡ S.name old.status.sink) };

    fn run<R: Wait>(&mut self, rt: &R, ended: &Ended) {
        self.watch(rt, ended);
    }
}
