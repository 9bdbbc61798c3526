//! The lines of a text, the words of a line and the values of words.

ghost use Rattle.std.specs.Prelude.{◌≡◌, ◌==◌, ◌≤◌, ◌∷◌, position, [], MatchOption, IfOk};
ghost use Rattle.std.specs.List.{list_all};
ghost use Rattle.tesla_commit.specs.JudgedLines.{at, within, Says, SaysOfLines};
ghost use Rattle.tesla_commit.specs.Parsing.{between, lines, words, next_line, value_in, chain_words, number_in, is_lower_digit, hex_in};

use crate::SetupKind;
use crate::refusal::LineRefusal;
use hex::decode_to_slice;
use tesla_base::read_decimal;

/// What stands before and after the first such byte of a text; `None` where the text has none.
pub fn cut(text: &[u8], byte: u8) -> Option<(&[u8], &[u8])>
    ensures { MatchOption result (between byte text.now ≡ text.now ∷ []) (λ x. between byte text.now ≡ x.0.now ∷ between byte x.1.now) }
{
    let Some(place) = first_offset(text, byte) else {
        return None;
    };
    Some((&text[..place], &text[place + 1..]))
}

/// The place of the first such byte of a text.
fn first_offset(text: &[u8], byte: u8) -> Option<usize>
    ensures { result ≡ position (λ b. b == byte) text.now }
{
    text.iter().position(|b| *b == byte)
}

/// The line of this number at the front of a text, without its LF, and the text after it.
pub fn next_line(number: u32, text: &[u8]) -> Result<(&[u8], &[u8]), LineRefusal>
    ensures { SaysOfLines (λ x. (x.0.now, lines x.1.now)) result (next_line number (lines text.now)) }
{
    match cut(text, b'\n') {
        Some((line, rest)) => Ok((line, rest)),
        None => Err(LineRefusal {
            line: number,
            kind: SetupKind::BadLine,
        }),
    }
}

/// The value of a line that has this name and one value, with one space between; `BadLine` of any other
/// line.
pub fn value_in<'a>(name: &[u8], line: &'a [u8]) -> Result<&'a [u8], SetupKind>
    ensures { Says (λ x. x.now) result (value_in name.now (words line.now)) }
{
    let Some((first, value)) = cut(line, b' ') else {
        return Err(SetupKind::BadLine);
    };
    if let Some(_) = cut(value, b' ') {
        return Err(SetupKind::BadLine);
    }
    if first != name {
        return Err(SetupKind::BadLine);
    }
    Ok(value)
}

/// The delay, the index and the key of a chain's line.
pub fn chain_words(line: &[u8]) -> Result<(&[u8], &[u8], &[u8]), SetupKind>
    ensures { Says (λ x. (x.0.now, x.1.now, x.2.now)) result (chain_words (words line.now)) }
{
    let Some((first, values)) = cut(line, b' ') else {
        return Err(SetupKind::BadLine);
    };
    let Some((delay, values)) = cut(values, b' ') else {
        return Err(SetupKind::BadLine);
    };
    let Some((index, key)) = cut(values, b' ') else {
        return Err(SetupKind::BadLine);
    };
    if let Some(_) = cut(key, b' ') {
        return Err(SetupKind::BadLine);
    }
    if first != b"chain".as_slice() {
        return Err(SetupKind::BadLine);
    }
    Ok((delay, index, key))
}

/// The number that a word spells.
pub fn number_in(word: &[u8]) -> Result<u64, SetupKind>
    ensures { result ≡ number_in word.now }
{
    match read_decimal(word) {
        Ok(number) => Ok(number),
        Err(_) => Err(SetupKind::BadNumber),
    }
}

/// A number within limits.
pub fn within(least: u64, most: u64, number: u64) -> Result<u64, SetupKind>
    ensures value { result ≡ within least most number }
    ensures limits { IfOk result (λ n. (least ≤ n) × (n ≤ most)) }
{
    if least <= number && number <= most {
        Ok(number)
    } else {
        Err(SetupKind::LimitPassed)
    }
}

fn is_lower(word: &[u8]) -> bool
    ensures { result ≡ list_all is_lower_digit word.now }
{
    word.iter()
        .all(|b| (48 <= *b && *b <= 57) || (97 <= *b && *b <= 102))
}

/// The `N` bytes that a word of lower-case hexadecimal digits spells; `BadHex` of any other word.
pub fn hex_in<const N: usize>(word: &[u8]) -> Result<[u8; N], SetupKind>
    ensures { result ≡ hex_in N word.now }
{
    if !is_lower(word) {
        return Err(SetupKind::BadHex);
    }
    let mut bytes = [0; N];
    match decode_to_slice(word, &mut bytes) {
        Ok(()) => Ok(bytes),
        Err(_) => Err(SetupKind::BadHex),
    }
}

/// What is judged on a line, refused at that line.
pub fn at<T: Drop>(line: u32, judged: Result<T, SetupKind>) -> Result<T, LineRefusal>
    ensures { SaysOfLines (λ x. x) result (at line judged) }
{
    match judged {
        Ok(value) => Ok(value),
        Err(kind) => Err(LineRefusal { line, kind }),
    }
}
