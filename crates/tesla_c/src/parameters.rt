//! The parameters of a stream in numbers.

ghost use Rattle.std.specs.Prelude.{◌≡◌, ◌+◌, ◌^◌, ◌<◌, ◌≤◌, length, List, ℕ, Err, IfOk, MatchResult};
ghost use Rattle.tesla_base.specs.Version.{IsTagLength, version_of};
ghost use Rattle.tesla_commit.specs.JudgedLines.{Says};
ghost use Rattle.tesla_sender_setup.specs.Delays.{AreDelays};
ghost use Rattle.tesla_sender_setup.specs.Parameters.{parameters_of};
ghost use Rattle.tesla_c.specs.Making.{AddsDelays, chains_judged, delays_judged, parameters_judged, placed, times_judged, version_judged};

use arrayvec::ArrayVec;
use tesla_base::{StreamId, Version};
use tesla_clock::Schedule;
use tesla_sender_setup::Parameters;

/// What a setup is made of beside its seeds, in the fields of a setup. Times are in microseconds, the length of a tag in
/// bytes, delays in intervals; places behind the last chain aren't read.
#[repr(C)]
#[derive(Drop)]
pub struct CParameters {
    pub stream: u64,
    pub start: u64,
    pub interval: u64,
    pub last: u32,
    pub version: u32,
    pub tag_length: u32,
    pub chains: u32,
    pub delays: [u32; 8],
}

// A number within limits, or its place.
fn placed(place: u32, least: u64, most: u64, number: u64) -> Result<u64, u32>
    ensures value { result ≡ placed place least most number }
    ensures within { IfOk result (λ it. (least ≤ it) × (it ≤ most)) }
{
    if number < least || most < number {
        return Err(place);
    }
    Ok(number)
}

// The intervals.
fn schedule_in(it: &CParameters) -> Result<Schedule, u32>
    ensures { Says (λ schedule. schedule) result (times_judged it.now) }
{
    let length = placed(3, 1_000, 3_600_000_000, it.interval)?;
    let last = placed(4, 1, 1_048_576, u64::from(it.last))?;
    match Schedule::new(it.start, length as u32, last as u32) {
        Some(schedule) => Ok(schedule),
        None => unreachable!(),
    }
}

// The number of the stream.
fn stream_of(number: u64) -> StreamId
    ensures value { result ≡ record { 0 = number } }
    ensures fits { result.0 < 2 ^ 64 }
{
    StreamId(number)
}

// The version.
fn version_in(number: u32) -> Result<Version, u32>
    ensures { result ≡ version_judged (version_of number) }
{
    match number {
        1 => Ok(Version::One),
        2 => Ok(Version::Two),
        _ => Err(5),
    }
}

// Adds delays, of which the first has that place and is above `before`.
fn put_delays(
    place: u32,
    before: u16,
    numbers: &[u32],
    delays: &mut ArrayVec<u16, 8>,
) -> Result<(), u32>
    requires room { length delays.old.items + length numbers.now ≤ 8 }
    requires places { place + length numbers.now ≤ 16 }
    ensures { MatchResult result (λ _. (more : List ℕ) × AddsDelays place before numbers.now delays.old.items delays.new.items more) (λ wrong. delays_judged place before numbers.now ≡ Err wrong) }
{
    let [first, others @ ..] = numbers else {
        return Ok(());
    };
    let delay = placed(place, u64::from(before) + 1, 4_096, u64::from(*first))? as u16;
    delays.push(delay);
    put_delays(place + 1, delay, others, delays)
}

// The length of tags and the delays in a version.
fn chains_in(version: Version, it: &CParameters) -> Result<(u8, ArrayVec<u16, 8>), u32>
    ensures value { Says (λ chains. (chains.0, chains.1.items)) result (chains_judged version it.now) }
    ensures limits { IfOk result (λ chains. IsTagLength version chains.0 × AreDelays version chains.1.items) }
{
    let (least, most) = (version.shortest_tag(), version.longest_tag());
    let size = placed(
        6,
        u64::from(least),
        u64::from(most),
        u64::from(it.tag_length),
    )?;
    let most = u64::from(version.most_chains());
    let count = placed(7, 1, most, u64::from(it.chains))?;
    let mut delays = ArrayVec::new();
    put_delays(8, 0, &it.delays[..count as usize], &mut delays)?;
    Ok((size as u8, delays))
}

/// The parameters that the numbers say, or the place of the first number that is outside its limits, as the fields count from
/// 1.
pub(crate) fn parameters_in(it: &CParameters) -> Result<Parameters, u32>
    ensures { Says parameters_of result (parameters_judged it.now) }
{
    let stream = stream_of(it.stream);
    let schedule = schedule_in(it)?;
    let version = version_in(it.version)?;
    let (tag_length, delays) = chains_in(version, it)?;
    Ok(Parameters {
        version,
        stream,
        schedule,
        tag_length,
        delays,
    })
}
