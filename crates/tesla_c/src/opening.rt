//! The opening of a receiver.

ghost use Rattle.std.specs.Prelude.{◌≡◌, ◌≤◌, MatchResult, Some};
ghost use Rattle.std.specs.declared.option.Option.TheVariants.{None};
ghost use Rattle.tesla_commit.specs.Parsing.{judged};
ghost use Rattle.tesla_c.specs.Receivers.{IsOpened, IsRefusedBy, bad_number};

use crate::engine::Engine;
use std::alloc::Global;
use tesla_commit::{SetupKind, SetupRefusal, read_setup};
use tesla_receiver::Receiver;

/// Why nothing is opened.
#[derive(Drop)]
pub enum OpenRefusal {
    /// The text: the line and the kind.
    Text { line: u32, kind: SetupKind },
    /// There wasn't enough memory.
    NoMemory,
}

/// The first number that is outside its limits, as the parameters of the opening count from 1, or 0.
pub(crate) fn bad_number(capacity: u32, quota: u32, ingests: u8) -> u32
    ensures { result ≡ bad_number capacity quota ingests }
{
    if capacity < 1 || 65_536 < capacity {
        return 4;
    }
    if quota < 1 || capacity < quota {
        return 5;
    }
    if ingests < 1 { 6 } else { 0 }
}

/// A receiver of the setup that a text spells, in its box. All memory is taken here.
pub(crate) fn open(
    alloc: Global,
    text: &[u8],
    lag: i64,
    capacity: u32,
    quota: u32,
    ingests: u8,
) -> Result<Box<Engine>, OpenRefusal>
    requires some { 1 ≤ quota }
    requires within { quota ≤ capacity }
    requires few { capacity ≤ 65536 }
    requires ingests { 1 ≤ ingests }
    ensures { MatchResult result (λ engine. IsOpened (judged text.now) lag capacity quota ingests (Some engine.value)) (IsRefusedBy (judged text.now)) }
{
    let setup = match read_setup(alloc, text) {
        Ok(setup) => setup,
        Err(SetupRefusal::At { line, kind }) => return Err(OpenRefusal::Text { line, kind }),
        Err(SetupRefusal::NoMemory) => return Err(OpenRefusal::NoMemory),
    };
    let Ok(receiver) = Receiver::open(alloc, setup, lag, capacity, quota, ingests) else {
        return Err(OpenRefusal::NoMemory);
    };
    match Box::new(alloc, Engine::Receiving(receiver)) {
        Ok(engine) => Ok(engine),
        Err(_) => Err(OpenRefusal::NoMemory),
    }
}
