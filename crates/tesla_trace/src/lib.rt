//! Traces: the entries of a receiver's history, with every answer, written to a sink, and judged as they are read.
#![tactic(auto)]

mod entry;
mod judging;
mod kind;
mod parts;
mod pieces;
mod view;
mod writing;

pub use entry::{EntryBuffer, EntryKind};
pub use judging::{judge_entry, judge_head, judge_tail_head, put_entry};
pub use kind::{EntryFault, TraceKind};
pub use pieces::{VerdictBytes, arrival_header, given_header, tail_head_bytes, verdict_bytes};
pub use writing::{put_arrived, put_ended, put_taken, put_trace_head, write_entry};
