//! The opening of a follower.

ghost use Rattle.std.specs.Prelude.{◌≡◌, ◌≤◌, MatchResult, Ok, Err, Some};
ghost use Rattle.tesla_commit.specs.ChainRows.{first_line};
ghost use Rattle.tesla_commit.specs.Parsing.{judged};
ghost use Rattle.tesla_c.specs.Followers.{IsFollowOpened, IsFollowRefusedBy, bad_follow_number, distinct_judged, follow_judged};

use crate::answers::{CRefusal, code_of};
use crate::engine::Engine;
use std::alloc::Global;
use tesla_base::Version;
use tesla_commit::{Setup, SetupRefusal, first_equal, read_setup};
use tesla_follow::Follower;

/// Why nothing is opened.
#[derive(Drop)]
pub enum FollowRefusal {
    /// The text: the line and the number of the kind.
    Text(CRefusal),
    /// There wasn't enough memory.
    NoMemory,
}

/// The first number that is outside its limits, as the parameters of the opening count from 1, or 0.
pub(crate) fn bad_follow_number(capacity: u32, quota: u32, ingests: u8) -> u32
    ensures { result ≡ bad_follow_number capacity quota ingests }
{
    if capacity < 1 || 4_096 < capacity {
        return 4;
    }
    if quota < 1 || capacity < quota {
        return 5;
    }
    if ingests < 1 { 6 } else { 0 }
}

// The line of a setup's text that has its first chain.
fn first_row(version: Version) -> u32
    ensures { result ≡ first_line version }
{
    match version {
        Version::One => 6,
        Version::Two => 7,
    }
}

// The setup, where no two of its commitments are equal.
fn distinct(setup: Setup) -> Result<Setup, CRefusal>
    ensures { MatchResult result (λ it. follow_judged (Ok setup) ≡ Ok it) (λ why. follow_judged (Ok setup) ≡ Err (why.line, why.kind)) }
{
    match first_equal(&setup) {
        None => Ok(setup),
        Some(chain) => Err(CRefusal {
            line: first_row(setup.format()) + u32::from(chain),
            kind: 10,
        }),
    }
}

// The setup that a text spells, in which no two commitments are equal.
fn distinct_setup(alloc: Global, text: &[u8]) -> Result<Setup, FollowRefusal>
    ensures { MatchResult result (λ it. follow_judged (judged text.now) ≡ Ok it) (IsFollowRefusedBy (follow_judged (judged text.now))) }
{
    match read_setup(alloc, text) {
        Ok(setup) => match distinct(setup) {
            Ok(setup) => Ok(setup),
            Err(why) => Err(FollowRefusal::Text(why)),
        },
        Err(SetupRefusal::At { line, kind }) => Err(FollowRefusal::Text(CRefusal {
            line,
            kind: code_of(kind),
        })),
        Err(SetupRefusal::NoMemory) => Err(FollowRefusal::NoMemory),
    }
}

/// A follower of the setup that a text spells, in its box. All memory is taken here.
pub(crate) fn open(
    alloc: Global,
    text: &[u8],
    lag: i64,
    capacity: u32,
    quota: u32,
    ingests: u8,
) -> Result<Box<Engine>, FollowRefusal>
    requires some { 1 ≤ quota }
    requires within { quota ≤ capacity }
    requires few { capacity ≤ 4096 }
    requires ingests { 1 ≤ ingests }
    ensures { MatchResult result (λ engine. IsFollowOpened (follow_judged (judged text.now)) lag capacity quota ingests (Some engine.value)) (IsFollowRefusedBy (follow_judged (judged text.now))) }
{
    let setup = match distinct_setup(alloc, text) {
        Ok(setup) => setup,
        Err(why) => return Err(why),
    };
    let Ok(follower) = Follower::open(alloc, setup, lag, capacity, quota, ingests) else {
        return Err(FollowRefusal::NoMemory);
    };
    match Box::new(alloc, Engine::Following(follower)) {
        Ok(engine) => Ok(engine),
        Err(_) => Err(FollowRefusal::NoMemory),
    }
}
