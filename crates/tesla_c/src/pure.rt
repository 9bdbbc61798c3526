//! The functions that C calls which read a text or a datagram and keep nothing. They take no memory.

ghost use Rattle.std.specs.Prelude.{◌≡◌};
ghost use Rattle.tesla_commit.specs.Parsing.{judged};
ghost use Rattle.tesla_frame.specs.Reading.{frame_of};
ghost use Rattle.tesla_c.specs.Pure.{TellsFrame, TellsLag, TellsSetup, exchange_judged};

use crate::answers::{CRefusal, code_of};
use crate::frames::{CFrame, head_of};
use crate::lags::{CKey, exchange};
use crate::setups::{CSetup, setup_of};
use crate::status::{NO_MEMORY, OK, REFUSED};
use std::alloc::Global;
use tesla_base::Key;
use tesla_commit::{SetupRefusal, read_setup};
use tesla_frame::read_frame;

/// Reads a setup. OK: what it says is told. REFUSED: the line and the kind are told.
#[unsafe(no_mangle)]
pub extern "C" fn tesla_setup_read(
    alloc: Global,
    text: &[u8],
    setup: &mut CSetup,
    refusal: &mut CRefusal,
) -> u32
    ensures { TellsSetup (judged text.now) result setup.old setup.new refusal.old refusal.new }
{
    match read_setup(alloc, text) {
        Ok(read) => {
            *setup = setup_of(&read);
            OK
        }
        Err(SetupRefusal::At { line, kind }) => {
            *refusal = CRefusal {
                line,
                kind: code_of(kind),
            };
            REFUSED
        }
        Err(SetupRefusal::NoMemory) => NO_MEMORY,
    }
}

/// Reads the head of a frame. OK: it is told. REFUSED: the datagram is no frame.
#[unsafe(no_mangle)]
pub extern "C" fn tesla_frame_read(datagram: &[u8], frame: &mut CFrame) -> u32
    ensures { TellsFrame (frame_of datagram.now) result frame.old frame.new }
{
    match read_frame(datagram) {
        Some(read) => {
            *frame = head_of(&read);
            OK
        }
        None => REFUSED,
    }
}

/// Tells the lag of an exchange, in microseconds: the receiver's ask, and the sender's reply under the key that they share,
/// where the clocks drift apart by so many microseconds before the next one. REFUSED: the number of the first refusal is
/// told.
#[unsafe(no_mangle)]
pub extern "C" fn tesla_lag_of(
    key: &CKey,
    ask: &[u8],
    reply: &[u8],
    drift: u32,
    lag: &mut i64,
    kind: &mut u32,
) -> u32
    ensures { TellsLag (exchange_judged drift (record { 0 = key.now.bytes }) ask.now reply.now) result lag.old lag.new kind.old kind.new }
{
    match exchange(drift, &Key(key.bytes), ask, reply) {
        Ok(told) => {
            *lag = told;
            OK
        }
        Err(why) => {
            *kind = why;
            REFUSED
        }
    }
}
