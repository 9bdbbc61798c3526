//! Bounds at the ends of their types, and safe chains.

use std::test::Fail;
use tesla_clock::Schedule;

/// The start and the length of a schedule, a reading, a lag, and the bound.
const BOUNDS: &[(u64, u32, u64, i64, Option<u64>)] = &[
    (1_000_000, 100_000, 1_369_999, 30_000, Some(3)),
    (1_000_000, 100_000, 1_370_000, 30_000, Some(4)),
    (1_000_000, 100_000, 970_000, 30_000, Some(0)),
    (1_000_000, 100_000, 969_999, 30_000, None),
    (1_000_000, 100_000, 960_000, 30_000, None),
    (1_000_000, 100_000, 1_100_000, -1, Some(0)),
    (
        1_000_000,
        100_000,
        u64::MAX,
        i64::MIN,
        Some(92_233_720_368_537),
    ),
    (1_000_000, 100_000, 0, i64::MIN, None),
    (0, 1000, u64::MAX, i64::MAX, Some(27_670_116_110_564_327)),
    (u64::MAX, 3_600_000_000, u64::MAX, -1, None),
    (u64::MAX, 3_600_000_000, u64::MAX, 0, Some(0)),
    (
        u64::MAX,
        3_600_000_000,
        u64::MAX,
        i64::MAX,
        Some(2_562_047_788),
    ),
];

#[test]
fn bounds(rt: HostRuntime) -> Result<(), Fail> {
    for (start, length, reading, lag, wanted) in BOUNDS {
        let schedule = Schedule::new(*start, *length, 8).ok_or("within the limits")?;
        assert_eq!(rt; schedule.bound(*reading, *lag), *wanted, "{reading} {lag}");
    }
    Ok(())
}

#[test]
fn safe_chains_of_interval_two(rt: HostRuntime) -> Result<(), Fail> {
    let schedule = Schedule::new(1_000_000, 100_000, 8).ok_or("within the limits")?;
    for (bound, newest, safe) in [
        (3, [0, 0], 3),
        (4, [0, 0], 2),
        (3, [2, 0], 2),
        (6, [0, 1], 2),
        (7, [0, 0], 0),
    ] {
        assert_eq!(rt;
            schedule.safe_chains(bound, 2, &[2, 5], &newest),
            safe,
            "{bound}"
        );
    }
    Ok(())
}
