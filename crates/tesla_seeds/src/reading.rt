//! Reading the text of seeds.

ghost use Rattle.std.specs.Prelude.{◌≡◌, ◌⊎◌, List, IfOk};
ghost use Rattle.tesla_base.specs.declared.names.Key.{Key};
ghost use Rattle.tesla_commit.specs.JudgedLines.{Says};
ghost use Rattle.tesla_commit.specs.Parsing.{lines};
ghost use Rattle.tesla_seeds.specs.Judged.{wanted_line, after_title, first_seed, keys_judged, seeds_judged, SeedsAnswers};
ghost use Rattle.tesla_seeds.specs.Text.{IsSeeds};
ghost use Rattle.tesla_seeds.specs.declared.refusal.SeedsRefusal.TheVariants as refusals;

use crate::{Seeds, SeedsKind, SeedsRefusal};
use std::alloc::Global;
use tesla_base::Key;
use tesla_commit::{cut, hex_in, value_in};

/// The line that a text has to begin with, without its LF, and the text after it.
fn wanted_line(text: &[u8]) -> Result<(&[u8], &[u8]), SeedsKind>
    ensures { Says (λ x. (x.0.now, lines x.1.now)) result (wanted_line (lines text.now)) }
{
    match cut(text, b'\n') {
        Some((line, rest)) => Ok((line, rest)),
        None => {
            if text.is_empty() {
                Err(SeedsKind::WrongCount)
            } else {
                Err(SeedsKind::BadLine)
            }
        }
    }
}

/// The text after line 1.
fn after_title(text: &[u8]) -> Result<&[u8], SeedsKind>
    ensures { Says (λ x. lines x.now) result (after_title (lines text.now)) }
{
    let (line, rest) = wanted_line(text)?;
    if line == b"tesla-seeds 1".as_slice() {
        Ok(rest)
    } else {
        Err(SeedsKind::BadLine)
    }
}

/// The seed of the line that a text begins with, and the text after it.
fn first_seed(text: &[u8]) -> Result<(Key, &[u8]), SeedsKind>
    ensures { Says (λ x. (x.0, lines x.1.now)) result (first_seed (lines text.now)) }
{
    let (line, rest) = wanted_line(text)?;
    let Ok(word) = value_in(b"seed", line) else {
        return Err(SeedsKind::BadLine);
    };
    let Ok(bytes) = hex_in(word) else {
        return Err(SeedsKind::BadHex);
    };
    Ok((Key(bytes), rest))
}

/// So many seeds, which end the text.
fn keys(alloc: Global, count: u8, text: &[u8]) -> Result<Vec<Key>, SeedsRefusal>
    ensures { SeedsAnswers (λ keys. keys.items) result (keys_judged 2 count (lines text.now)) }
{
    let mut keys = Vec::new(alloc);
    let mut rest = text;
    let end = 2 + u32::from(count);
    for line in 2..end {
        let (key, after) = match first_seed(rest) {
            Ok((key, after)) => (key, after),
            Err(kind) => return Err(SeedsRefusal::At { line, kind }),
        };
        keys.push(key)?;
        rest = after;
    }
    if !rest.is_empty() {
        return Err(SeedsRefusal::At {
            line: end,
            kind: SeedsKind::WrongCount,
        });
    }
    Ok(keys)
}

/// What a whole text is judged to say.
#[tactic(auto, unfolding(crate::specs::Judged::seeds_judged))]
fn all(alloc: Global, text: &[u8], count: u8) -> Result<Seeds, SeedsRefusal>
    ensures { SeedsAnswers (λ seeds. seeds) result (seeds_judged count text.now) }
{
    if text.len() > 4096 {
        return Err(SeedsRefusal::At {
            line: 0,
            kind: SeedsKind::TooLong,
        });
    }
    let rest = match after_title(text) {
        Ok(rest) => rest,
        Err(kind) => return Err(SeedsRefusal::At { line: 1, kind }),
    };
    let keys = keys(alloc, count, rest)?;
    Ok(Seeds::assemble(keys))
}

/// The `count` seeds that a text spells: that of each chain, the last key of the chain (RFC 4082, section
/// 3.2). Each list of seeds has one spelling, of at most 4,096 bytes: `tesla-seeds 1`, and for each chain in
/// its order `seed` and 64 lower-case hexadecimal digits. An LF ends each line, and one space stands between
/// words. A stream has 1 to 8 chains; what is said here holds for every count, also for 0.
///
/// Else the first refused line is told, counted from 1, with what is wrong with it. `TooLong` at line 0 comes
/// first. Within a line the kinds come in this order:
///
/// | kind | exactly where |
/// |---|---|
/// | `WrongCount` | the text ends before the line, and the line is wanted; or a byte stands there, behind the last line that is wanted |
/// | `BadLine` | no LF ends the line, or its words are others |
/// | `BadHex` | the word isn't 64 such digits |
///
/// `NoMemory` where the allocator had none.
pub fn read_seeds(alloc: Global, text: &[u8], count: u8) -> Result<Seeds, SeedsRefusal>
    // Which seeds, or which line and kind, unless memory runs out.
    ensures exact { SeedsAnswers (λ seeds. seeds) result (seeds_judged count text.now) }
    // What is read is spelled so.
    ensures found { IfOk result (λ seeds. IsSeeds text.now count seeds) }
    // What is spelled so is read, unless memory runs out.
    ensures only { (seeds : List Key) → IsSeeds text.now count seeds → (result ≡ Ok seeds) ⊎ (result ≡ Err refusals.NoMemory) }
{
    all(alloc, text, count)
}
