//! The date and the time of day of a second.

ghost use Rattle.std.specs.Prelude.{◌≡◌, ◌+◌, ◌<◌, ◌≤◌, length, take, get_or};
ghost use Rattle.std.specs.List.{sum};
ghost use Rattle.tesla_run_info.specs.info.Calendar.{IsMoment, days_in_year, days_in_years, is_leap, month_lengths};

/// The seconds of a day.
const DAY: u64 = 86_400;

/// The year with which dates begin.
const FIRST: u32 = 1970;

/// A date and a time of day, UTC.
#[derive(Clone, Copy, Debug)]
pub struct Moment {
    /// 1970 and on.
    pub year: u32,
    /// 1 to 12.
    pub month: u8,
    /// 1 to 31.
    pub day: u8,
    /// 0 to 23.
    pub hour: u8,
    /// 0 to 59.
    pub minute: u8,
    /// 0 to 59.
    pub second: u8,
}

// Whether a year has a day more.
fn is_leap(year: u32) -> bool
    ensures { result ≡ is_leap year }
{
    year % 4 == 0 && (!(year % 100 == 0) || year % 400 == 0)
}

// How many days a year has.
fn days_in_year(year: u32) -> u32
    ensures { result ≡ days_in_year year }
{
    if is_leap(year) { 366 } else { 365 }
}

// How many days the months of a year have.
fn month_lengths(year: u32) -> [u8; 12]
    ensures { result ≡ month_lengths year }
{
    let february = if is_leap(year) { 29 } else { 28 };
    [31, february, 31, 30, 31, 30, 31, 31, 30, 31, 30, 31]
}

// How many whole years have passed since 1970 began, and how many days of the next one.
fn years_in(days: u32) -> (u32, u32)
    requires { days ≤ 1000000000 }
    ensures passed { days ≡ days_in_years result.0 + result.1 }
    ensures rest { result.1 < days_in_year (1970 + result.0) }
    ensures few { result.0 ≤ days }
{
    let mut years = 0;
    let mut rest = days;
    while rest >= days_in_year(FIRST + years) {
        rest -= days_in_year(FIRST + years);
        years += 1;
    }
    (years, rest)
}

// How many whole months of these lengths have passed, and how many days of the next one.
fn months_in(lengths: &[u8], days: u32) -> (u8, u8)
    requires few { length lengths.now ≤ 12 }
    requires within { days < sum lengths.now }
    ensures month { result.0 < length lengths.now }
    ensures day { result.1 < get_or lengths.now result.0 0 }
    ensures passed { days ≡ sum (take result.0 lengths.now) + result.1 }
{
    match lengths {
        [first, others @ ..] => {
            let size = u32::from(*first);
            if days < size {
                return (0, days as u8);
            }
            let (months, day) = months_in(others, days - size);
            (months + 1, day)
        }
        [] => unreachable!(),
    }
}

/// The moment of a second, counted from the begin of 1970.
pub fn moment_of(seconds: u64) -> Moment
    requires { seconds ≤ 20000000000000 }
    ensures { IsMoment seconds result }
{
    let rest = (seconds % DAY) as u32;
    let (years, days) = years_in((seconds / DAY) as u32);
    let (months, day) = months_in(&month_lengths(FIRST + years), days);
    Moment {
        year: FIRST + years,
        month: months + 1,
        day: day + 1,
        hour: (rest / 3600) as u8,
        minute: (rest % 3600 / 60) as u8,
        second: (rest % 60) as u8,
    }
}
