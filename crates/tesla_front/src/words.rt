//! The words that several commands share.

ghost use Rattle.std.specs.Prelude.{◌≡◌, ℕ, Some, None, IfSome, true, false, position};
ghost use Rattle.std.specs.Prelude.{◌<◌, ◌≤◌, ◌^◌};
ghost use Rattle.std.specs.Int.{w64, to_be_bytes};
ghost use Rattle.hex.specs.Hex.{encode_lower};
ghost use Rattle.tesla_base.specs.declared.names.StreamId.{StreamId};
ghost use Rattle.tesla_front.specs.Words.{IsName, ArePacketLimits, IsNumberWithin, is_slash};
ghost use Rattle.tesla_front.specs.Forms.{LagIs, NameIs, NumberIs, LimitsAre};
ghost use Rattle.tesla_front.specs.declared.words.PacketLimits.{PacketLimits};

use crate::Word;
use hex::{decode_to_slice, encode_to_slice};
use std::marker::Model;
use tesla_base::{StreamId, read_decimal, read_signed};
use tesla_desk::CONSOLE;

/// The greatest capacity.
const MOST: u32 = 65_536;

/// How many packets a receiver holds at most.
#[derive(Clone, Copy, Debug, PartialEq, Eq)]
pub struct PacketLimits {
    /// Of all intervals: 1 to 65,536.
    pub capacity: u32,
    /// Of one interval: 1 to the capacity.
    pub quota: u32,
}

/// Whether a word is a name of a file: it is not empty, and not the console's.
pub fn is_name(word: &str) -> bool
    ensures yes { result ≡ true → IsName word.now }
    ensures no { result ≡ false → IsName word.now → ⊥ }
{
    if word.is_empty() {
        return false;
    }
    word != CONSOLE
}

/// The number from `low` to `high` that a word spells as a decimal. `None` exactly where it spells none.
pub fn number_in(word: &[u8], low: u64, high: u64) -> Option<u64>
    // What is found is spelled so.
    ensures found { IfSome result (λ n. IsNumberWithin low high word.now n) }
    // What is spelled so is found.
    ensures only { (n : ℕ) → IsNumberWithin low high word.now n → result ≡ Some n }
{
    match read_decimal(word) {
        Ok(number) if low <= number && number <= high => Some(number),
        _ => None,
    }
}

// The lower-case hexadecimal digits of the bytes of a number, the highest byte first.
fn digits_of(number: u64) -> [u8; 16]
    ensures { result ≡ encode_lower (to_be_bytes w64 number) }
{
    let mut digits = [0; 16];
    let Ok(()) = encode_to_slice(number.to_be_bytes(), &mut digits) else {
        unreachable!()
    };
    digits
}

/// The number of a stream that a word spells in 16 lower-case hexadecimal digits. `None` exactly where it spells
/// none.
pub fn stream_in(word: &[u8]) -> Option<StreamId>
    // What is found is spelled so.
    ensures found { IfSome result (λ stream. word.now ≡ encode_lower (to_be_bytes w64 stream.0)) }
    // What is spelled so is found.
    ensures only { (stream : StreamId) → stream.0 < 2 ^ 64 → word.now ≡ encode_lower (to_be_bytes w64 stream.0) → result ≡ Some stream }
{
    let mut bytes = [0; 8];
    if decode_to_slice(word, &mut bytes).is_err() {
        return None;
    }
    let number = u64::from_be_bytes(bytes);
    if word != digits_of(number).as_slice() {
        return None;
    }
    Some(StreamId(number))
}

// The number from 1 to `most` that a word spells.
fn count_in(word: &[u8], most: u32) -> Option<u32>
    ensures found { IfSome result (λ n. IsNumberWithin 1 most word.now n) }
    ensures only { (n : ℕ) → IsNumberWithin 1 most word.now n → result ≡ Some n }
{
    match number_in(word, 1, u64::from(most)) {
        Some(number) => Some(number as u32),
        None => None,
    }
}

// The place of the first slash.
fn slash_in(word: &[u8]) -> Option<usize>
    ensures { result ≡ position is_slash word.now }
{
    word.iter().position(|byte| *byte == b'/')
}

// The capacity and the quota, told the words before and after the slash.
fn both_in(capacity: &[u8], quota: &[u8]) -> Option<PacketLimits>
    ensures found { IfSome result (λ limits. IsNumberWithin 1 65536 capacity.now limits.capacity × IsNumberWithin 1 limits.capacity quota.now limits.quota) }
    ensures only { (limits : PacketLimits) → IsNumberWithin 1 65536 capacity.now limits.capacity → IsNumberWithin 1 limits.capacity quota.now limits.quota → result ≡ Some limits }
{
    let Some(capacity) = count_in(capacity, MOST) else {
        return None;
    };
    let Some(quota) = count_in(quota, capacity) else {
        return None;
    };
    Some(PacketLimits { capacity, quota })
}

/// The capacity and the quota that a word spells: a decimal from 1 to 65,536, which is both, or two with a slash
/// between them, of which the second is from 1 to the first. `None` exactly where it spells neither.
pub fn limits_in(word: &[u8]) -> Option<PacketLimits>
    // What is found is spelled so.
    ensures found { IfSome result (ArePacketLimits word.now) }
    // What is spelled so is found.
    ensures only { (limits : PacketLimits) → ArePacketLimits word.now limits → result ≡ Some limits }
{
    match slash_in(word) {
        Some(place) => both_in(&word[..place], &word[place + 1..]),
        None => match count_in(word, MOST) {
            Some(number) => Some(PacketLimits {
                capacity: number,
                quota: number,
            }),
            None => None,
        },
    }
}

/// A name: it is not empty, and not the console's.
#[derive(Drop)]
pub struct Name<'a> {
    text: &'a str,
}

impl<'a> Model for Name<'a> {
    ghost use Rattle.std.specs.Prelude.{ℕ, List};

    ghost Value = { List ℕ };

    ghost view = { λ name. name.text.now };
}

impl<'a> Name<'a> {
    /// The name.
    pub fn as_str(&self) -> &'a str
        ensures { result.now ≡ self.now }
    {
        self.text
    }
}

impl<'a> Word<'a> for Name<'a> {
    ghost spells = { NameIs };

    fn read(word: &'a str) -> Option<Name<'a>> {
        if !is_name(word) {
            return None;
        }
        Some(Name { text: word })
    }
}

impl<'a> Word<'a> for u64 {
    ghost spells = { NumberIs 0 18446744073709551615 };

    fn read(word: &'a str) -> Option<u64> {
        number_in(word.as_bytes(), 0, u64::MAX)
    }
}

impl<'a> Word<'a> for u32 {
    ghost spells = { NumberIs 0 4294967295 };

    fn read(word: &'a str) -> Option<u32> {
        match number_in(word.as_bytes(), 0, u64::from(u32::MAX)) {
            Some(number) => Some(number as u32),
            None => None,
        }
    }
}

impl<'a> Word<'a> for u16 {
    ghost spells = { NumberIs 0 65535 };

    fn read(word: &'a str) -> Option<u16> {
        match number_in(word.as_bytes(), 0, u64::from(u16::MAX)) {
            Some(number) => Some(number as u16),
            None => None,
        }
    }
}

/// A number from 1 to `MOST`.
#[derive(Drop)]
pub struct Count<const MOST: u32> {
    number: u32,
}

impl<const MOST: u32> Model for Count<MOST> {
    ghost use Rattle.std.specs.Prelude.{ℕ, ◌≤◌};

    ghost Value = { ℕ };

    ghost view = { λ it. it.number };

    ghost invariant = { λ it. (1 ≤ it.number) × (it.number ≤ MOST) };
}

impl<const MOST: u32> Count<MOST> {
    /// The number.
    pub fn get(&self) -> u32
        ensures number { result ≡ self.now }
        ensures some { 1 ≤ result }
        ensures most { result ≤ MOST }
    {
        self.number
    }
}

impl<'a, const MOST: u32> Word<'a> for Count<MOST> {
    ghost spells = { NumberIs 1 MOST };

    fn read(word: &'a str) -> Option<Count<MOST>> {
        match count_in(word.as_bytes(), MOST) {
            Some(number) => Some(Count { number }),
            None => None,
        }
    }
}

impl<'a> Word<'a> for i64 {
    ghost spells = { LagIs };

    fn read(word: &'a str) -> Option<i64> {
        match read_signed(word.as_bytes()) {
            Ok(lag) => Some(lag),
            Err(_) => None,
        }
    }
}

impl<'a> Word<'a> for PacketLimits {
    ghost spells = { LimitsAre };

    fn read(word: &'a str) -> Option<PacketLimits> {
        limits_in(word.as_bytes())
    }
}
