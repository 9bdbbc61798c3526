//! Laws about the live commands, as contracts of functions that do nothing, or run them.

ghost use Rattle.std.specs.Prelude.{◌≡◌, ℕ, Bool, List, Option, false, map, string_bytes};
ghost use Rattle.tesla_desk.specs.Live.{Live};
ghost use Rattle.tesla_desk.specs.Outside.{Told};
ghost use Rattle.tesla_memory_desk.specs.Sure.{sure_told_by};
ghost use Rattle.tesla_front.specs.OutcomeView.{OutcomeView, status_of};
ghost use Rattle.tesla_front.specs.Command.{Performs, RunsAs};
ghost use Rattle.tesla_front.specs.Fault.{IsUnfailed};
ghost use Rattle.tesla_receiver.specs.Entries.{Entry};
ghost use Rattle.tesla_turn.specs.Held.{Ended};
ghost use Rattle.tesla_cli_live.specs.Commands.{IsLive, IsLiveTool, IsRecorded, RunsLive, RunsLiveTools, RunsRecorded, followed_in, live_of, live_tool_of, watched_in};
ghost use Rattle.tesla_cli_live.specs.declared.live_tools.ToolLast.{ToolLast};
ghost use Rattle.tesla_run_capture.specs.Arguments.{CaptureArguments, IsCaptureForm};
ghost use Rattle.tesla_run_capture.specs.Capture.{capture};
ghost use Rattle.tesla_run_feed.specs.Arguments.{FeedArguments, IsFeedForm};
ghost use Rattle.tesla_run_feed.specs.Feeding.{feed};
ghost use Rattle.tesla_run_follow.specs.Arguments.{IsFollow};
ghost use Rattle.tesla_run_follow.specs.Follow.{following};
ghost use Rattle.tesla_run_relay.specs.play.Arguments.{IsPlayForm, PlayArguments};
ghost use Rattle.tesla_run_relay.specs.play.Playing.{play};
ghost use Rattle.tesla_run_receive.specs.Arguments.{IsReceive, ReceiveArguments};
ghost use Rattle.tesla_run_receive.specs.Receive.{receive};
ghost use Rattle.tesla_run_receive.specs.record.Arguments.{IsRecord};
ghost use Rattle.tesla_run_receive.specs.record.Record.{form_of_record};
ghost use Rattle.tesla_run_relay.specs.Arguments.{IsRelayForm, RelayArguments};
ghost use Rattle.tesla_run_relay.specs.Relay.{relay};
ghost use Rattle.tesla_run_relay.specs.watch.Arguments.{IsWatchForm, WatchArguments};
ghost use Rattle.tesla_run_relay.specs.watch.Watch.{watch_relay};
ghost use Rattle.tesla_run_receive.specs.watch.Arguments.{IsWatch};
ghost use Rattle.tesla_run_receive.specs.watch.Watch.{watched, watching};
ghost use Rattle.tesla_run_receive.specs.OutputArguments.{OutputArguments};
ghost use Rattle.tesla_laws.specs.Completeness.{CaptureIsComplete, OutputIsComplete, PlayIsComplete, ReceiveIsComplete, RelayIsComplete};

use std::alloc::Global;
use std::sync::Wait;
use std::thread::Threads;
use tesla_cli_live::{Done, LiveToolsDone, RecordedDone, run_live, run_live_tools, run_recorded};
use tesla_memory_desk::SureDesk;

/// Words that are a form of some command are run as that command, and are for its table: the first word of each form
/// names it.
pub fn forms_are_named()
    ensures receives { (arguments : ReceiveArguments) (words : List (List ℕ)) (before now : Live) (last : Option (Ended Entry)) (old new : Told) (outcome : OutcomeView) → IsReceive arguments words → RunsAs (live_of before now last words) words old new outcome → Performs (receive before now last) arguments old new outcome }
    ensures relays { (arguments : RelayArguments) (words : List (List ℕ)) (before now : Live) (last : Option (Ended Entry)) (old new : Told) (outcome : OutcomeView) → IsRelayForm arguments words → RunsAs (live_of before now last words) words old new outcome → Performs (relay before now) arguments old new outcome }
    ensures plays { (arguments : PlayArguments) (words : List (List ℕ)) (before now : Live) (last : Option (Ended Entry)) (old new : Told) (outcome : OutcomeView) → IsPlayForm arguments words → RunsAs (live_of before now last words) words old new outcome → Performs (play before now) arguments old new outcome }
    ensures receive_is { (arguments : ReceiveArguments) (words : List (List ℕ)) → IsReceive arguments words → IsLive words }
    ensures relay_is { (arguments : RelayArguments) (words : List (List ℕ)) → IsRelayForm arguments words → IsLive words }
    ensures play_is { (arguments : PlayArguments) (words : List (List ℕ)) → IsPlayForm arguments words → IsLive words }
    ensures captures { (arguments : CaptureArguments) (words : List (List ℕ)) (over : Bool) (before now : Live) (last : Option ToolLast) (old new : Told) (outcome : OutcomeView) → IsCaptureForm arguments words → RunsAs (live_tool_of over before now last words) words old new outcome → Performs (capture before now) arguments old new outcome }
    ensures feeds { (arguments : FeedArguments) (words : List (List ℕ)) (over : Bool) (before now : Live) (last : Option ToolLast) (old new : Told) (outcome : OutcomeView) → IsFeedForm arguments words → RunsAs (live_tool_of over before now last words) words old new outcome → Performs (feed over before now) arguments old new outcome }
    ensures watches { (arguments : OutputArguments) (words : List (List ℕ)) (over : Bool) (before now : Live) (last : Option ToolLast) (old new : Told) (outcome : OutcomeView) → IsWatch arguments words → RunsAs (live_tool_of over before now last words) words old new outcome → Performs (watching before now (watched_in last)) arguments old new outcome }
    ensures follows { (arguments : OutputArguments) (words : List (List ℕ)) (over : Bool) (before now : Live) (last : Option ToolLast) (old new : Told) (outcome : OutcomeView) → IsFollow arguments words → RunsAs (live_tool_of over before now last words) words old new outcome → Performs (following before now (followed_in last)) arguments old new outcome }
    ensures watch_relays { (arguments : WatchArguments) (words : List (List ℕ)) (over : Bool) (before now : Live) (last : Option ToolLast) (old new : Told) (outcome : OutcomeView) → IsWatchForm arguments words → RunsAs (live_tool_of over before now last words) words old new outcome → Performs (watch_relay before now) arguments old new outcome }
    ensures capture_is { (arguments : CaptureArguments) (words : List (List ℕ)) → IsCaptureForm arguments words → IsLiveTool words }
    ensures feed_is { (arguments : FeedArguments) (words : List (List ℕ)) → IsFeedForm arguments words → IsLiveTool words }
    ensures watch_is { (arguments : OutputArguments) (words : List (List ℕ)) → IsWatch arguments words → IsLiveTool words }
    ensures follow_is { (arguments : OutputArguments) (words : List (List ℕ)) → IsFollow arguments words → IsLiveTool words }
    ensures watch_relay_is { (arguments : WatchArguments) (words : List (List ℕ)) → IsWatchForm arguments words → IsLiveTool words }
    ensures record_is { (arguments : OutputArguments) (words : List (List ℕ)) → IsRecord arguments words → IsRecorded words }
{}

/// Where no count of faults rose and the inputs are in their grammars, a run of a live command comes to its end, so its
/// status is 0, or to want of memory.
///
/// The receivers ask for a setup, and that no worker comes to the end of its calls: the history has fewer than 2^56
/// entries of each ingest, and takes of each releaser. `play` asks for a capture; `relay` and `capture` ask for nothing.
pub fn completeness()
    ensures receives { ReceiveIsComplete }
    ensures records { OutputIsComplete form_of_record }
    ensures watches { OutputIsComplete watched }
    ensures relays { RelayIsComplete }
    ensures plays { PlayIsComplete }
    ensures captures { CaptureIsComplete }
{}

/// Runs the words as the top call does, over a desk on which no call from outside fails. The status is never 4, 5 or 7.
pub fn run_surely<R: Threads + Wait + Sync>(
    rt: &R,
    alloc: Global,
    words: &[String],
    desk: &mut SureDesk,
) -> Done
    ensures outcome { (told : OutcomeView) × (result.status ≡ status_of told) × RunsLive (map string_bytes words.now) (sure_told_by desk.old) (sure_told_by desk.new) result.last told }
    ensures unfailed { IsUnfailed result.status }
{
    run_live(rt, alloc, words, desk)
}

/// The same of the live tools.
pub fn run_live_tools_surely<R: Threads + Wait + Sync>(
    rt: &R,
    alloc: Global,
    words: &[String],
    desk: &mut SureDesk,
) -> LiveToolsDone
    ensures outcome { (told : OutcomeView) × (result.status ≡ status_of told) × RunsLiveTools false (map string_bytes words.now) (sure_told_by desk.old) (sure_told_by desk.new) result.last told }
    ensures unfailed { IsUnfailed result.status }
{
    run_live_tools(rt, alloc, words, desk)
}

/// The same of `record`.
pub fn run_recorded_surely<R: Threads + Wait + Sync>(
    rt: &R,
    alloc: Global,
    words: &[String],
    desk: &mut SureDesk,
) -> RecordedDone
    ensures outcome { (told : OutcomeView) × (result.status ≡ status_of told) × RunsRecorded (map string_bytes words.now) (sure_told_by desk.old) (sure_told_by desk.new) result.last told }
    ensures unfailed { IsUnfailed result.status }
{
    run_recorded(rt, alloc, words, desk)
}
