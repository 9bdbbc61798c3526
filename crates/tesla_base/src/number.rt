//! Whole numbers read from decimal text, one spelling for each number.

ghost use Rattle.std.specs.Prelude.{◌≡◌, ℕ, ◌+◌, ◌^◌, ◌<◌, ◌≤◌, ℤ, length, IfOk, Ok, decimal, nat_le, Option, Some, None, if◌then◌else◌, FitsSigned};
ghost use Rattle.std.specs.Fmt.{signed_decimal};
ghost use Rattle.std.specs.Int.{w64};
ghost use Rattle.std.specs.Str.Parse.{AllDigits, digits_value};
ghost use Rattle.tesla_base.specs.Number.{decimal_of, first_other, negative, number_of, signed_of};

use std::fmt;

/// Why a text spells no number: the first of these that holds, in this order.
#[derive(Clone, Copy, Debug, PartialEq, Eq)]
pub enum NumberFault {
    /// There is no digit at all.
    Empty,
    /// The byte at this place of the text, counted from 0, is the first that isn't a digit.
    NotDigit(usize),
    /// More digits follow a first digit 0, or a minus stands before a 0.
    LeadingZero,
    /// The number doesn't fit its type.
    TooLarge,
}

impl fmt::Display for NumberFault {
    fn fmt<W: fmt::Write>(&self, f: &mut fmt::Formatter<W>) -> fmt::Result {
        match self {
            NumberFault::Empty => write!(f, "no digits"),
            NumberFault::NotDigit(place) => write!(f, "no digit at place {place}"),
            NumberFault::LeadingZero => write!(f, "a leading zero"),
            NumberFault::TooLarge => write!(f, "a number too large"),
        }
    }
}

/// The number that these digits spell, unless it is above `most`.
fn value(digits: &[u8], most: u64) -> Option<u64>
    requires { AllDigits 10 digits.now }
    ensures { result ≡ (if nat_le (digits_value 10 digits.now) most then Some (digits_value 10 digits.now) else None) }
{
    let mut value: u64 = 0;
    for digit in digits {
        let Some(tens) = value.checked_mul(10) else {
            return None;
        };
        let Some(next) = tens.checked_add(u64::from(*digit - b'0')) else {
            return None;
        };
        value = next;
    }
    if value <= most { Some(value) } else { None }
}

/// The place of the first byte that isn't a digit.
fn first_other(text: &[u8]) -> Option<usize>
    ensures { result ≡ first_other text.now }
{
    text.iter().position(|byte| !byte.is_ascii_digit())
}

/// The number that a text spells, with so many bytes before the text.
fn number(text: &[u8], before: usize, most: u64) -> Result<u64, NumberFault>
    requires { before + length text.now < 2 ^ 64 }
    ensures exact { result ≡ number_of most before text.now }
    ensures within { IfOk result (λ n. n ≤ most) }
{
    if text.is_empty() {
        return Err(NumberFault::Empty);
    }
    if let Some(place) = first_other(text) {
        return Err(NumberFault::NotDigit(before + place));
    }
    if text[0] == b'0' && text.len() > 1 {
        return Err(NumberFault::LeadingZero);
    }
    match value(text, most) {
        Some(number) => Ok(number),
        None => Err(NumberFault::TooLarge),
    }
}

/// The whole number of 64 bits that a text spells in decimal digits.
///
/// The faults come in the order of `NumberFault`: no digits; the first byte that isn't a digit; a first 0
/// with more digits after it; a number above the `u64`.
#[tactic(auto, unfolding(crate::specs::Number::decimal_of))]
pub fn read_decimal(text: &[u8]) -> Result<u64, NumberFault>
    // Which number or fault it is.
    ensures exact { result ≡ decimal_of text.now }
    // What is read is spelled so.
    ensures found { IfOk result (λ n. text.now ≡ decimal n) }
    // What is spelled so is read.
    ensures only { (n : ℕ) → n < 2 ^ 64 → text.now ≡ decimal n → result ≡ Ok n }
{
    number(text, 0, u64::MAX)
}

/// The number whose digits after a minus spell `magnitude`.
fn negated(magnitude: u64) -> Result<i64, NumberFault>
    requires { magnitude ≤ 2 ^ 63 }
    ensures { result ≡ negative (Ok magnitude) }
{
    match magnitude {
        0 => Err(NumberFault::LeadingZero),
        // 2^63 isn't an i64, but its negation is.
        _ => Ok(-((magnitude - 1) as i64) - 1),
    }
}

/// What `read_signed` answers.
#[tactic(auto, unfolding(crate::specs::Number::signed_of))]
fn signed(text: &[u8]) -> Result<i64, NumberFault>
    ensures { result ≡ signed_of text.now }
{
    match text {
        [b'-', digits @ ..] => negated(number(digits, 1, 1 << 63)?),
        _ => Ok(number(text, 0, i64::MAX as u64)? as i64),
    }
}

/// The signed number of 64 bits that a text spells: a `-` may stand first, and decimal digits follow.
///
/// The faults come in the order of `NumberFault`, with places counted in the whole text. `-0` is a leading
/// zero.
pub fn read_signed(text: &[u8]) -> Result<i64, NumberFault>
    // Which number or fault it is.
    ensures exact { result ≡ signed_of text.now }
    // What is read is spelled so.
    ensures found { IfOk result (λ z. text.now ≡ signed_decimal z) }
    // What is spelled so is read.
    ensures only { (z : ℤ) → FitsSigned w64 z → text.now ≡ signed_decimal z → result ≡ Ok z }
{
    signed(text)
}
