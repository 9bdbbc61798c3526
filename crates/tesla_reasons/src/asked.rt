//! What a word of a form asks for.

use tesla_base::{read_decimal, read_signed};

/// What is wrong with a word that stands for this word of a command's form; `None` where nothing is, as far as is known
/// here.
pub(crate) fn fault_in(command: &str, asked: &str, word: &str) -> Option<&'static str> {
    match asked {
        "LAG" => match read_signed(word.as_bytes()) {
            Ok(_) => None,
            Err(_) => Some("is no number from -2^63 to 2^63 - 1 without leading zeros"),
        },
        "CAPACITY" => match command {
            "relay" | "roll" => within(word, 1, 4_096, "is no number from 1 to 4096"),
            _ => fault_in_limits(word),
        },
        "STREAM" => fault_in_stream(word),
        "LINKS" | "SINKS" | "POSTS" => fault_in_list(word, 32, "has more than 32 names"),
        "SETUPS" | "SECRETS" => fault_in_list(word, 16, "has more than 16 names"),
        _ => match fault_in_number(asked, word) {
            Some(fault) => fault,
            None => fault_in_name(word),
        },
    }
}

// What is wrong with a number; `None` where none is asked for.
fn fault_in_number(asked: &str, word: &str) -> Option<Option<&'static str>> {
    let (low, high, fault) = match asked {
        "SEED" => (0, 65_535, "is no number from 0 to 65535"),
        "COUNT" => (1, 100_000, "is no number from 1 to 100000"),
        "DRIFT" => (0, 4_294_967_295, "is no number from 0 to 4294967295"),
        "READING" | "START" => (0, u64::MAX, "is no number from 0 to 2^64 - 1"),
        "GAP" | "[RATE]" => (1, 1_000_000, "is no number from 1 to 1000000"),
        "KEEP" | "DELAY" | "[DELAY]" => (1, 4_096, "is no number from 1 to 4096"),
        "EVERY" => (1, 3_600, "is no number from 1 to 3600"),
        "INTERVAL" => (1_000, 3_600_000_000, "is no number from 1000 to 3600000000"),
        "LAST" => (1, 1_048_576, "is no number from 1 to 1048576"),
        "TAG" => (10, 32, "is no number from 10 to 32"),
        _ => return None,
    };
    Some(within(word, low, high, fault))
}

// What is wrong where a word isn't the decimal of a number from `low` to `high`.
fn within(word: &str, low: u64, high: u64, fault: &'static str) -> Option<&'static str> {
    match read_decimal(word.as_bytes()) {
        Ok(number) if low <= number && number <= high => None,
        _ => Some(fault),
    }
}

// What is wrong with a capacity, and a quota behind a slash.
fn fault_in_limits(word: &str) -> Option<&'static str> {
    let fault = "is no D or D/D: a capacity from 1 to 65536, and a quota from 1 to the capacity";
    let (capacity, quota) = match word.split_once('/') {
        Some(parts) => parts,
        None => (word, word),
    };
    match (
        read_decimal(capacity.as_bytes()),
        read_decimal(quota.as_bytes()),
    ) {
        (Ok(most), Ok(of_one)) if 1 <= of_one && of_one <= most && most <= 65_536 => None,
        _ => Some(fault),
    }
}

// What is wrong with the number of a stream.
fn fault_in_stream(word: &str) -> Option<&'static str> {
    let is_digit = |byte: &u8| byte.is_ascii_digit() || (b'a' <= *byte && *byte <= b'f');
    if word.len() == 16 && word.as_bytes().iter().all(is_digit) {
        return None;
    }
    Some("isn't 16 hexadecimal digits in lower case")
}

// What is wrong with a name.
fn fault_in_name(word: &str) -> Option<&'static str> {
    if word.is_empty() || word == "-" {
        Some("is no name of a file: it is empty or -")
    } else {
        None
    }
}

// What is wrong with a list of names, which has so many at most; where there are more, this is told.
fn fault_in_list(word: &str, most: u64, too_many: &'static str) -> Option<&'static str> {
    let mut count = 0u64;
    for (at, name) in word.split(',').enumerate() {
        if fault_in_name(name).is_some() {
            return Some("has a name that is empty or -");
        }
        if word.split(',').take(at).any(|other| other == name) {
            return Some("has a name twice");
        }
        count = count.saturating_add(1);
    }
    if most < count {
        return Some(too_many);
    }
    None
}
