//! Entries as they stand in the bytes of a trace.

ghost use Rattle.std.specs.Prelude.{◌≡◌, length};
ghost use Rattle.tesla_receiver.specs.declared.history.Entry.TheVariants.{Taken};
ghost use Rattle.tesla_trace.specs.Entries.{IsEntry, TellsLength, entry_in};
ghost use Rattle.tesla_trace.specs.Shown.{IsWithin, ReplyIsWithin, entry_seen, reply_seen};

use crate::entry::{EntryBuffer, EntryKind};
use tesla_fitting::Verdict;
use tesla_state::Take;

/// An answer to a take, with the payload where a packet was given.
#[derive(Clone, Copy)]
pub(crate) struct ReplyView<'a> {
    pub(crate) reply: Take,
    pub(crate) payload: &'a [u8],
}

/// An entry whose bytes are borrowed from the trace.
#[derive(Clone, Copy)]
pub(crate) enum EntryView<'a> {
    Arrival {
        ingest: u8,
        reading: u64,
        bytes: &'a [u8],
        verdict: Verdict,
    },
    Take {
        releaser: u8,
        answer: ReplyView<'a>,
    },
    End {
        ingest: u8,
    },
}

/// Puts an entry into a place.
pub(crate) fn put_view(view: EntryView<'_>, entry: &mut EntryBuffer)
    requires { IsWithin view }
    ensures entry { entry_in entry.new ≡ entry_seen view.entry }
    ensures within { IsEntry entry.new }
{
    match view {
        EntryView::Arrival {
            ingest,
            reading,
            bytes,
            verdict,
        } => entry.set_arrival(ingest, reading, bytes, verdict),
        EntryView::Take { releaser, answer } => put_answer(releaser, answer, entry),
        EntryView::End { ingest } => entry.set_end(ingest),
    }
}

/// Puts a take with its answer into a place.
fn put_answer(releaser: u8, answer: ReplyView<'_>, entry: &mut EntryBuffer)
    requires { ReplyIsWithin answer }
    ensures entry { entry_in entry.new ≡ Taken releaser (reply_seen answer.entry) }
    ensures within { IsEntry entry.new }
{
    entry.kind = EntryKind::Take;
    entry.who = releaser;
    entry.reply = answer.reply;
    if let Take::Given(head) = answer.reply {
        entry.length = head.length;
        entry.bytes[..usize::from(head.length)].copy_from_slice(answer.payload);
    }
}
