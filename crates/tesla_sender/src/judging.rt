//! Whether a call is accepted.

ghost use Rattle.std.specs.Prelude.{◌≡◌, ◌≤◌};
ghost use Rattle.tesla_sender.specs.Made.{disclosed_after, interval_at, name_after};
ghost use Rattle.tesla_sender.specs.Stands.{number_at};

use crate::{DiscloseRefusal, SendRefusal};
use tesla_base::{MOST_PAYLOAD, Name};
use tesla_clock::Schedule;

/// The interval of a reading, 0 before the start.
pub fn interval_at(schedule: Schedule, reading: u64) -> u64
    ensures { result ≡ interval_at schedule reading }
{
    match schedule.interval_at(reading) {
        Some(interval) => interval,
        None => 0,
    }
}

/// How many messages of the interval were accepted, where so many were of the interval `latest`, and none of a
/// later one.
fn number_at(latest: u64, used: u32, interval: u64) -> u32
    ensures { result ≡ number_at latest used interval }
{
    if interval == latest { used } else { 0 }
}

/// The name of a message, where the last accepted call was of the interval `latest`, of which `used` messages
/// were accepted.
pub fn judge_message(
    schedule: Schedule,
    latest: u64,
    used: u32,
    reading: u64,
    payload: &[u8],
) -> Result<Name, SendRefusal>
    ensures { result ≡ name_after schedule latest (number_at latest used (interval_at schedule reading)) reading payload.now }
{
    if payload.len() > MOST_PAYLOAD {
        return Err(SendRefusal::TooLong(payload.len()));
    }
    let interval = interval_at(schedule, reading);
    if interval == 0 {
        return Err(SendRefusal::Early(reading));
    }
    if interval > u64::from(schedule.last()) {
        return Err(SendRefusal::Over(interval));
    }
    if interval < latest {
        return Err(SendRefusal::Backward(latest));
    }
    let number = number_at(latest, used, interval);
    let interval = interval as u32;
    if number > u32::from(u16::MAX) {
        return Err(SendRefusal::IntervalFull(interval));
    }
    Ok(Name {
        interval,
        number: number as u16,
    })
}

/// The interval of a disclosure, where the last accepted call was of the interval `latest`, and in that of the reading
/// some chain has a key to disclose where `due` says so.
pub fn judge_disclosure(
    schedule: Schedule,
    latest: u64,
    due: bool,
    reading: u64,
) -> Result<u64, DiscloseRefusal>
    ensures { result ≡ disclosed_after schedule latest due reading }
{
    let interval = interval_at(schedule, reading);
    if interval < latest {
        return Err(DiscloseRefusal::Backward(latest));
    }
    if !due {
        return Err(DiscloseRefusal::NothingDue);
    }
    Ok(interval)
}
