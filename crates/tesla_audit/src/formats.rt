//! The formats of traces and of tails.

ghost use Rattle.tesla_trace.specs.Entries.{IsEntry, entry_in};
ghost use Rattle.tesla_trace.specs.Grammar.{tail, trace};
ghost use Rattle.tesla_trace.specs.declared.entry.EntryBuffer.{EntryBuffer};
ghost use Rattle.tesla_trace.proofs.TraceIs.{tail_is, trace_is};

use tesla_records::{Format, HeadJudged, Judged};
use tesla_trace::{EntryBuffer, EntryFault, judge_entry, judge_head, judge_tail_head, put_entry};

/// A format of files of entries: that of traces or that of tails.
pub trait EntryFormat: Format<Kind = EntryFault, Room = EntryBuffer, Taken = ()> {
    /// What is put into a place is an entry.
    ghost holds: { (taken : Unit {0}) (before after : EntryBuffer) → Self.fits taken before after → IsEntry after };
}

/// The format of traces: a head tells how many ingests the receiver has, and then entries follow.
#[derive(Drop)]
pub struct TraceFormat;

impl Format for TraceFormat {
    ghost grammar = { trace };

    type Head = u8;

    type Kind = EntryFault;

    type Room = EntryBuffer;

    type Taken = ();

    ghost head_of = { λ n. n };

    ghost kind_of = { λ fault. fault };

    ghost shown = { λ _ room. entry_in room };

    ghost fits = { λ _ _ after. IsEntry after };

    ghost is = { trace_is };

    fn head_size() -> usize {
        6
    }

    fn judge_head(bytes: &[u8]) -> HeadJudged<u8> {
        judge_head(bytes)
    }

    fn judge(bytes: &[u8]) -> Judged<EntryFault> {
        judge_entry(bytes)
    }

    fn put(bytes: &[u8], room: &mut EntryBuffer) {
        put_entry(bytes, room);
    }
}

impl EntryFormat for TraceFormat {
    ghost holds = { λ taken before after fits. fits };
}

/// The format of tails: a head tells how many entries stand before the first one, and then entries follow.
#[derive(Drop)]
pub struct TailFormat;

impl Format for TailFormat {
    ghost grammar = { tail };

    type Head = u64;

    type Kind = EntryFault;

    type Room = EntryBuffer;

    type Taken = ();

    ghost head_of = { λ n. n };

    ghost kind_of = { λ fault. fault };

    ghost shown = { λ _ room. entry_in room };

    ghost fits = { λ _ _ after. IsEntry after };

    ghost is = { tail_is };

    fn head_size() -> usize {
        13
    }

    fn judge_head(bytes: &[u8]) -> HeadJudged<u64> {
        judge_tail_head(bytes)
    }

    fn judge(bytes: &[u8]) -> Judged<EntryFault> {
        judge_entry(bytes)
    }

    fn put(bytes: &[u8], room: &mut EntryBuffer) {
        put_entry(bytes, room);
    }
}

impl EntryFormat for TailFormat {
    ghost holds = { λ taken before after fits. fits };
}
