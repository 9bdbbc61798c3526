//! What the calls of the workers of a station come to, as the contracts of functions that do nothing.

ghost use Rattle.std.specs.Prelude.{◌≡◌, ◌+◌, ◌<◌, ℕ, List, [], true, length, count_by, slice_index_or};
ghost use Rattle.std.specs.List.{Contains, list_all, sum_by};
ghost use Rattle.tesla_receiver.specs.History.{arrivals_in, ends, given_in, has_end};
ghost use Rattle.tesla_receiver.specs.Packets.{released};
ghost use Rattle.tesla_replay.specs.Records.{records_of};
ghost use Rattle.tesla_receiver.specs.declared.history.Arrival.{Arrival};
ghost use Rattle.tesla_fitting.specs.declared.verdict.Verdict.{Verdict};
ghost use Rattle.tesla_state.specs.declared.replies.Reply.{Reply};
ghost use Rattle.tesla_state.specs.declared.replies.Reply.TheVariants.{Over};
ghost use Rattle.tesla_turn.specs.History.{entries, HasCalls};
ghost use Rattle.tesla_shared.specs.Whole.{AreWorkers, arrivals_by, is_of_workers, link_size, replies_by};
ghost use Rattle.tesla_shared.specs.Receiving.{records};

use crate::{Receiving, Station};
use tesla_turn::Last;

/// A turn over a station was closed, and its passes were those of workers: one that made no call, one for each
/// link, and one for each sink. Then the whole history is what the workers made and nothing else, however their
/// turns fell:
///
/// - The arrivals of each link's ingest are those that its worker made, each once and in their order. The answers to
///   the takes for each sink are those that its worker got, in their order.
/// - Each ingest has ended, once.
///
/// The conditions are what `close` ensures. The passes are as `AreWorkers` says where `ingest` was called once for each
/// link and `drain` once for each sink, in the order of their numbers and each on a pass of its own, and all were joined.
pub fn whole_history<V: Station>(last: &Last<V>)
    requires calls { HasCalls last.now.history last.now.passes }
    // Every entry is an arrival or the end of a link's ingest, or a take for a sink.
    ensures workers { (links : List (List (Arrival V.Verdict))) (sinks : List (List V.Reply)) → AreWorkers links sinks last.now.passes →
        list_all (is_of_workers (length links) (length sinks)) (entries last.now.history) ≡ true }
    // The arrivals of each ingest are those of its link.
    ensures arrivals { (links : List (List (Arrival V.Verdict))) (sinks : List (List V.Reply)) → AreWorkers links sinks last.now.passes →
        (ingest : ℕ) → arrivals_by ingest (entries last.now.history) ≡ slice_index_or links ingest [] }
    // The answers to the takes of each releaser are those for its sink.
    ensures replies { (links : List (List (Arrival V.Verdict))) (sinks : List (List V.Reply)) → AreWorkers links sinks last.now.passes →
        (releaser : ℕ) → replies_by releaser (entries last.now.history) ≡ slice_index_or sinks releaser [] }
    // Each ingest has ended, once.
    ensures ended { (links : List (List (Arrival V.Verdict))) (sinks : List (List V.Reply)) → AreWorkers links sinks last.now.passes →
        (ingest : ℕ) → ingest < length links → (has_end (entries last.now.history) ingest ≡ true) × (count_by (ends ingest) (entries last.now.history) ≡ 1) }
    // Each call stands once: the history is as long as the calls of all workers together.
    ensures size { (links : List (List (Arrival V.Verdict))) (sinks : List (List V.Reply)) → AreWorkers links sinks last.now.passes →
        length last.now.history ≡ sum_by link_size links + sum_by length sinks }
{}

/// The same, where the station answers as a receiver of one stream. Then the records of each sink are those of the answers
/// that its worker got. And where each ingest of the receiver has a link, and some sink's worker was told that all is over,
/// every packet that is released of all that arrived was given to some sink.
pub fn whole_release<V: Receiving>(station: &V, last: &Last<V>)
    requires stands { V.stands station.now (entries last.now.history) }
    requires calls { HasCalls last.now.history last.now.passes }
    // The records of each releaser are those of the answers for its sink.
    ensures written { (links : List (List (Arrival Verdict))) (sinks : List (List Reply)) → AreWorkers links sinks last.now.passes →
        (releaser : ℕ) → records_of releaser (entries last.now.history) ≡ records (slice_index_or sinks releaser []) }
    // Where each ingest has a link, and a take was answered Over, as many packets were given as are released of all arrivals.
    ensures complete { (links : List (List (Arrival Verdict))) (sinks : List (List Reply)) → AreWorkers links sinks last.now.passes →
        (V.receiver (V.config station.now)).ingests ≡ length links → (releaser : ℕ) → Contains (slice_index_or sinks releaser []) Over →
        given_in (entries last.now.history) ≡ length (released (V.receiver (V.config station.now)) (arrivals_in (entries last.now.history))) }
{}
