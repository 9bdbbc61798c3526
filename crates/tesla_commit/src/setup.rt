//! A setup and its parts.

ghost use Rattle.std.specs.Prelude.{◌≡◌, ℕ, ◌<◌, ◌≤◌, List, length, slice_get, Ok};
ghost use Rattle.std.specs.List.{AllByRecursion};
ghost use Rattle.tesla_base.specs.Version.{number_of, most_chains, shortest_tag, IsTagLength};
ghost use Rattle.tesla_base.specs.declared.version.Version.TheVariants.{One, Two};
ghost use Rattle.tesla_commit.specs.Parts.{Parts, IsRow, IsSetupOf};
ghost use Rattle.tesla_commit.specs.SetupText.{HasKey};
ghost use Rattle.tesla_commit.specs.JudgedLines.{Answers, SaysOfLines};
ghost use Rattle.tesla_commit.specs.ChainRows.{parts_judged};

use crate::chain_rows::{judge_rows, judge_tag};
use crate::refusal::LineRefusal;
use crate::{ChainRow, SetupRefusal};
use arrayvec::ArrayVec;
use std::alloc::Global;
use std::marker::Model;
use tesla_base::{NoMemory, StreamId, Version};
use tesla_clock::Schedule;

/// How many chains a setup of any version has at most.
pub(crate) const MOST_ROWS: usize = 8;

/// What receivers trust beforehand of a stream (RFC 4082, section 3.3): the version of its frames, its
/// number, its intervals, the length of its tags, and its key chains, with strictly rising disclosure
/// delays. There are one to four of them in version 1, whose tags have 16 bytes, and one to eight in
/// version 2, whose tags have 10 to 32.
#[derive(Debug, Drop)]
pub struct Setup {
    version: Version,
    stream: StreamId,
    schedule: Schedule,
    tag_length: u8,
    rows: ArrayVec<ChainRow, MOST_ROWS>,
}

impl Model for Setup {
    ghost use Rattle.std.specs.Prelude.{ℕ};
    ghost use Rattle.std.specs.List.{AllByRecursion};
    ghost use Rattle.tesla_commit.specs.Parts.{Parts, IsSetupOf};
    ghost use Rattle.tesla_commit.specs.SetupText.{HasKey};

    ghost Value = { Parts };

    ghost view = { λ s. record { version = s.version; stream = s.stream; times = s.schedule; tag_length = s.tag_length; rows = s.rows.items } };

    ghost invariant = { λ s. IsSetupOf (record { version = s.version; stream = s.stream; times = s.schedule; tag_length = s.tag_length; rows = s.rows.items }) × AllByRecursion HasKey s.rows.items };
}

// The list of these rows.
fn list_of(rows: &[ChainRow]) -> ArrayVec<ChainRow, MOST_ROWS>
    requires { length rows.now ≤ 8 }
    ensures { result.items ≡ rows.now }
{
    let mut list = ArrayVec::new();
    if list.try_extend_from_slice(rows).is_err() {
        unreachable!()
    }
    list
}

impl Setup {
    /// The setup of version 1 with these parts: tags have 16 bytes. It is refused at the first refused
    /// line, where row `k` has line `6 + k`: `NoChain` at line 6 where there is no row, `TooManyChains`
    /// at line 10 where there is a fifth, and in a row, in this order, `LimitPassed` where the delay is
    /// not 1 to 4,096, `DelaysNotRising` where it is not above that of the row before, `IndexPastLast`
    /// where the index is above the last interval. It takes no memory, and `NoMemory` is never its answer.
    pub fn new(
        _alloc: Global,
        stream: StreamId,
        schedule: Schedule,
        rows: &[ChainRow],
    ) -> Result<Setup, SetupRefusal>
        ensures { Answers (λ setup. setup) result (parts_judged One stream schedule (shortest_tag One) rows.now) }
    {
        let version = Version::One;
        let tag = version.shortest_tag();
        Ok(Setup::of_version(version, stream, schedule, tag, rows)?)
    }

    /// The setup of version 2 with these parts, whose tags have `tag` bytes. It is refused at the first
    /// refused line: `LimitPassed` at line 6 where `tag` is not 10 to 32; and then, where row `k` has
    /// line `7 + k`, `NoChain` at line 7 where there is no row, `TooManyChains` at line 15 where there
    /// is a ninth, and in a row the kinds that [`Setup::new`] has, in its order. It takes no memory.
    pub fn new2(
        _alloc: Global,
        stream: StreamId,
        schedule: Schedule,
        tag: u8,
        rows: &[ChainRow],
    ) -> Result<Setup, SetupRefusal>
        ensures { Answers (λ setup. setup) result (parts_judged Two stream schedule tag rows.now) }
    {
        Ok(Setup::of_version(Version::Two, stream, schedule, tag, rows)?)
    }

    /// The setup of these parts in either version.
    #[tactic(auto, unfolding(crate::specs::ChainRows::parts_judged))]
    fn of_version(
        version: Version,
        stream: StreamId,
        schedule: Schedule,
        tag: u8,
        rows: &[ChainRow],
    ) -> Result<Setup, LineRefusal>
        ensures { SaysOfLines (λ setup. setup) result (parts_judged version stream schedule tag rows.now) }
    {
        judge_tag(version, tag)?;
        judge_rows(version, schedule.last(), rows)?;
        let rows = list_of(rows);
        Ok(Setup::assemble(version, stream, schedule, tag, rows))
    }

    /// The setup of parts within the limits.
    pub(crate) fn assemble(
        version: Version,
        stream: StreamId,
        schedule: Schedule,
        tag_length: u8,
        rows: ArrayVec<ChainRow, MOST_ROWS>,
    ) -> Setup
        requires limits { IsSetupOf (record { version = version; stream = stream; times = schedule; tag_length = tag_length; rows = rows.items }) }
        requires keys { AllByRecursion HasKey rows.items }
        ensures { result ≡ record { version = version; stream = stream; times = schedule; tag_length = tag_length; rows = rows.items } }
    {
        Setup {
            version,
            stream,
            schedule,
            tag_length,
            rows,
        }
    }

    /// The number of the version of the setup and of its stream's frames: 1 or 2.
    pub fn version(&self) -> u8
        ensures { result ≡ number_of self.now.version }
    {
        self.version.number()
    }

    /// The version of the setup and of its stream's frames.
    pub fn format(&self) -> Version
        ensures { result ≡ self.now.version }
    {
        self.version
    }

    /// How many bytes a tag of the stream has: 16 in version 1, 10 to 32 in version 2.
    pub fn tag_length(&self) -> u8
        ensures value { result ≡ self.now.tag_length }
        ensures limits { IsTagLength self.now.version result }
    {
        self.tag_length
    }

    /// The number of the stream.
    pub fn stream(&self) -> StreamId
        ensures { result ≡ self.now.stream }
    {
        self.stream
    }

    /// The intervals of the stream.
    pub fn schedule(&self) -> Schedule
        ensures { result ≡ self.now.times }
    {
        self.schedule
    }

    /// How many chains there are: 1 to 4 in version 1, 1 to 8 in version 2.
    pub fn count(&self) -> u8
        ensures value { result ≡ length self.now.rows }
        ensures some { 1 ≤ result }
        ensures few { result ≤ 8 }
        ensures limit { result ≤ most_chains self.now.version }
        ensures limits { IsSetupOf self.now }
        ensures keys { AllByRecursion HasKey self.now.rows }
    {
        self.rows.len() as u8
    }

    /// The commitment of one chain, below `count`.
    pub fn row(&self, chain: u8) -> ChainRow
        requires { chain < length self.now.rows }
        ensures value { slice_get self.now.rows chain ≡ Some result }
        ensures limits { IsRow self.now.times.last result }
    {
        self.rows[chain as usize]
    }

    /// The same setup once more. It takes no memory, and `NoMemory` is never its answer.
    pub fn copy(&self, _alloc: Global) -> Result<Setup, NoMemory>
        ensures { result ≡ Ok self.now }
    {
        Ok(Setup {
            version: self.version,
            stream: self.stream,
            schedule: self.schedule,
            tag_length: self.tag_length,
            rows: list_of(self.rows.as_slice()),
        })
    }
}
