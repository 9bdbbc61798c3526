//! The lines that tell what a relay came to.

ghost use Rattle.std.specs.Prelude.{◌≡◌, ◌+◌, ◌-◌, ◌*◌, ◌<◌, ◌≤◌, ◌++◌, ◌||◌, drop, length};
ghost use Rattle.std.specs.List.{list_any};
ghost use Rattle.arrayvec.specs.ArrayString.{array_string_len};
ghost use Rattle.tesla_front.specs.OutcomeView.{outcome_view};
ghost use Rattle.tesla_run_relay.specs.Lines.{outcome_with, has_failed, lines_from, post_line};

use itoa::Buffer;
use tesla_front::{Fault, Lines, Outcome};
use tesla_relay::{PostCount, RelayEnd, Relayed};

// Adds the line of the count of post `k`, which has at most 64 bytes.
fn add_post(lines: &mut Lines, k: u8, count: PostCount)
    requires number { k < 100 }
    requires room { array_string_len lines.old + 64 ≤ 2048 }
    ensures text { lines.new.bytes ≡ lines.old.bytes ++ post_line k count }
    ensures few { array_string_len lines.new ≤ array_string_len lines.old + 64 }
{
    let mut digits = Buffer::new();
    lines.push_str("post ");
    lines.push_str(digits.format(k));
    lines.push_str(" sent ");
    lines.push_str(digits.format(count.sent));
    lines.push_str(" dropped ");
    lines.push_str(digits.format(count.dropped));
    lines.push_str("\n");
}

// Adds the lines of the counts of `posts` posts from post `k` on.
fn add_posts(lines: &mut Lines, k: u8, posts: u8, relayed: &Relayed)
    requires posts { posts ≡ length relayed.now.counts.items }
    requires few { posts ≤ 32 }
    requires within { k ≤ posts }
    requires room { array_string_len lines.old + 64 * (posts - k) ≤ 2048 }
    ensures { lines.new.bytes ≡ lines.old.bytes ++ lines_from k (drop k relayed.now.counts.items) }
{
    if k == posts {
        return;
    }
    add_post(lines, k, relayed.post(k));
    add_posts(lines, k + 1, posts, relayed);
}

// Whether one of `posts` posts from post `k` on failed.
fn any_failed(k: u8, posts: u8, relayed: &Relayed) -> bool
    requires posts { posts ≡ length relayed.now.counts.items }
    requires within { k ≤ posts }
    ensures { result ≡ list_any has_failed (drop k relayed.now.counts.items) }
{
    if k == posts {
        return false;
    }
    if relayed.post(k).failed {
        return true;
    }
    any_failed(k + 1, posts, relayed)
}

/// What a relay to `posts` posts came to: `Failed` with `Read` where the link failed, with `Write` where a post did, and else
/// `Done` with a line for each post in order. It takes no memory.
pub fn outcome_of(relayed: &Relayed, posts: u8) -> Outcome
    requires posts { posts ≡ length relayed.now.counts.items }
    requires few { posts ≤ 32 }
    ensures { outcome_view result ≡ outcome_with relayed.now.end (list_any has_failed relayed.now.counts.items) relayed.now.counts.items }
{
    match relayed.end {
        RelayEnd::Failed => Outcome::Failed(Fault::Read),
        RelayEnd::Ended => {
            if any_failed(0, posts, relayed) {
                return Outcome::Failed(Fault::Write);
            }
            let mut lines = Lines::new();
            add_posts(&mut lines, 0, posts, relayed);
            Outcome::Done(lines)
        }
    }
}

/// The same where what the counts were written to may have failed too, which is a failed write.
pub fn outcome_beside(relayed: &Relayed, posts: u8, failed: bool) -> Outcome
    requires posts { posts ≡ length relayed.now.counts.items }
    requires few { posts ≤ 32 }
    ensures { outcome_view result ≡ outcome_with relayed.now.end (failed || list_any has_failed relayed.now.counts.items) relayed.now.counts.items }
{
    if !failed {
        return outcome_of(relayed, posts);
    }
    match relayed.end {
        RelayEnd::Failed => Outcome::Failed(Fault::Read),
        RelayEnd::Ended => Outcome::Failed(Fault::Write),
    }
}
