//! The lines of STATUS.

ghost use Rattle.std.specs.Prelude.{◌≡◌, ◌+◌, ◌*◌, ◌≤◌, ◌++◌, length};
ghost use Rattle.arrayvec.specs.ArrayString.{array_string_len};
ghost use Rattle.tesla_run_relay.specs.watch.Lines.{post_text, posts_text, status_line};

use itoa::Buffer;
use tesla_front::Lines;
use tesla_relay::SoFar;

// Adds the counts of post `k`. These are at most 61 bytes.
#[tactic(auto, unfolding(crate::specs::watch::Lines::post_text))]
fn add_post(line: &mut Lines, k: u8, count: SoFar)
    requires room { array_string_len line.old + 61 ≤ 2048 }
    ensures text { line.new.bytes ≡ line.old.bytes ++ post_text k count }
    ensures few { array_string_len line.new ≤ array_string_len line.old + 61 }
{
    let mut digits = Buffer::new();
    line.push_str(" sent");
    line.push_str(digits.format(k));
    line.push_str("=");
    line.push_str(digits.format(count.sent));
    line.push_str(" dropped");
    line.push_str(digits.format(k));
    line.push_str("=");
    line.push_str(digits.format(count.dropped));
}

// Adds the counts of posts, numbered from `k` on.
fn add_posts(line: &mut Lines, k: u8, counts: &[SoFar])
    requires posts { k + length counts.now ≤ 32 }
    requires room { array_string_len line.old + 61 * length counts.now ≤ 2048 }
    ensures text { line.new.bytes ≡ line.old.bytes ++ posts_text k counts.now }
    ensures few { array_string_len line.new ≤ array_string_len line.old + 61 * length counts.now }
{
    let [count, counts @ ..] = counts else {
        return;
    };
    add_post(line, k, *count);
    add_posts(line, k + 1, counts);
}

/// The line of the counts of at most 32 posts at a reading of a clock, which stands behind a word of at most 5 bytes, and of
/// how many datagrams the system refused to send, with its LF. It takes no memory.
#[tactic(auto, unfolding(crate::specs::watch::Lines::status_line))]
pub(crate) fn line_of(word: &str, reading: u64, counts: &[SoFar], unsent: u64) -> Lines
    requires short { length word.now ≤ 5 }
    requires posts { length counts.now ≤ 32 }
    ensures { result.bytes ≡ status_line word.now reading counts.now unsent }
{
    let mut digits = Buffer::new();
    let mut line = Lines::new();
    line.push_str(word);
    line.push_str(digits.format(reading));
    add_posts(&mut line, 0, counts);
    line.push_str(" unsent=");
    line.push_str(digits.format(unsent));
    line.push_str("\n");
    line
}
