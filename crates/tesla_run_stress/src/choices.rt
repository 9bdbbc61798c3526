//! The numbers of a load, and what they choose for a message.

ghost use Rattle.std.specs.Prelude.{◌≡◌, ◌+◌, ◌*◌, ◌%◌, ◌^◌, ◌<◌, ◌≤◌};
ghost use Rattle.tesla_run_stress.specs.Load.{end_reading, offset_chosen, reading_chosen, reading_of};

/// The number that comes after this one.
pub fn next_number(number: u32) -> u32
    requires { number < 65537 }
    ensures value { result ≡ (75 * number + 74) % 65537 }
    ensures limit { result < 65537 }
{
    (75 * number + 74) % 65_537
}

/// The reading at which message `k` is made, in microseconds.
pub fn reading_of(k: u32) -> u64
    ensures value { result ≡ reading_of k }
    ensures least { 1100000 ≤ result }
    ensures most { result < 2 ^ 60 }
{
    let k = u64::from(k);
    1_000_000 + 100_000 * (1 + k / 10) + 10_000 * (k % 10)
}

/// The reading of the disclosure after all messages, where this is the last interval.
pub fn end_reading(last: u32) -> u64
    ensures { result ≡ end_reading last }
{
    1_000_000 + 100_000 * (u64::from(last) + 5) + 50_000
}

/// The reading at which its frame comes, where it isn't lost.
pub fn reading_chosen(choice: u32, k: u32) -> u64
    ensures { result ≡ reading_chosen choice k }
{
    let reading = reading_of(k);
    match choice {
        6 => reading + 700_000,
        7 => reading + 200_000,
        9 => reading - 400_000,
        _ => reading,
    }
}

/// The place of the byte that is altered in it. `None`: it comes as it was made.
pub fn offset_chosen(choice: u32, k: u32) -> Option<usize>
    ensures { result ≡ offset_chosen choice k }
{
    match choice {
        3 => Some(22),
        4 => Some(4),
        5 => Some(13),
        8 if k >= 20 => Some(48),
        _ => None,
    }
}
