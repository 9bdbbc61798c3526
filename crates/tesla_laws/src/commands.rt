//! Laws about the commands, as contracts of functions that do nothing, or run them.

ghost use Rattle.std.specs.Prelude.{◌≡◌, ◌⊎◌, ℕ, List, map, string_bytes};
ghost use Rattle.tesla_desk.specs.Live.{Live};
ghost use Rattle.tesla_desk.specs.Outside.{Told};
ghost use Rattle.tesla_memory_desk.specs.Sure.{sure_told_by};
ghost use Rattle.tesla_front.specs.OutcomeView.{OutcomeView, status_of};
ghost use Rattle.tesla_front.specs.Fault.{IsUnfailed};
ghost use Rattle.tesla_front.specs.Printing.{IsPrintedAs};
ghost use Rattle.tesla_front.specs.Run.{HasNoConsole, Runs};
ghost use Rattle.tesla_cli.specs.Commands.{IsTool, NamesForms, RunsTool, command_of, tool_of, tool_usage, usage};
ghost use Rattle.tesla_run_ask.specs.Arguments.{AskArguments, IsAskForm, IsReplyForm, ReplyArguments};
ghost use Rattle.tesla_run_ask.specs.Asking.{ask};
ghost use Rattle.tesla_run_ask.specs.Replying.{reply};
ghost use Rattle.tesla_run_audit.specs.Audit.{audit};
ghost use Rattle.tesla_run_chain.specs.Chain.{chain};
ghost use Rattle.tesla_run_early.specs.Early.{early};
ghost use Rattle.tesla_run_ask.specs.lag.Lag.{lag};
ghost use Rattle.tesla_run_info.specs.info.Arguments.{InfoArguments, IsInfoForm};
ghost use Rattle.tesla_run_info.specs.info.Telling.{info};
ghost use Rattle.tesla_run_info.specs.seeds.Arguments.{IsSeedsForm, SeedsArguments};
ghost use Rattle.tesla_run_info.specs.seeds.Drawing.{seeds};
ghost use Rattle.tesla_run_replay.specs.Replay.{replay};
ghost use Rattle.tesla_run_roll.specs.Roll.{roll};
ghost use Rattle.tesla_run_send.specs.Send.{send};
ghost use Rattle.tesla_run_audit.specs.show.Arguments.{IsShowForm, ShowArguments};
ghost use Rattle.tesla_run_audit.specs.show.Show.{show};
ghost use Rattle.tesla_run_stress.specs.Stress.{stress};
ghost use Rattle.tesla_run_audit.specs.trace.Trace.{trace};
ghost use Rattle.tesla_run_weave.specs.Weave.{weave};

use std::alloc::Global;
use tesla_cli::{run_here, run_tools};
use tesla_memory_desk::SureDesk;

/// Words that are a form of some command are run as that command, and those of a tool as that tool, and are for its
/// table: the first word of each form names it.
pub fn forms_are_named()
    ensures commands { NamesForms command_of replay × NamesForms command_of chain × NamesForms command_of send × NamesForms command_of lag × NamesForms command_of stress × NamesForms command_of roll × NamesForms command_of weave × NamesForms command_of early × NamesForms command_of trace × NamesForms command_of audit }
    ensures tools { (before now : Live) → NamesForms (tool_of before now) ask × NamesForms (tool_of before now) reply × NamesForms (tool_of before now) seeds × NamesForms (tool_of before now) (info before now) }
    ensures shows { (arguments : ShowArguments) (words : List (List ℕ)) (old new : Told) (outcome : OutcomeView) → IsShowForm arguments words → RunsTool words old new outcome → HasNoConsole old new outcome ⊎ IsPrintedAs show arguments tool_usage old new outcome }
    ensures ask_is { (arguments : AskArguments) (words : List (List ℕ)) → IsAskForm arguments words → IsTool words }
    ensures reply_is { (arguments : ReplyArguments) (words : List (List ℕ)) → IsReplyForm arguments words → IsTool words }
    ensures show_is { (arguments : ShowArguments) (words : List (List ℕ)) → IsShowForm arguments words → IsTool words }
    ensures seeds_is { (arguments : SeedsArguments) (words : List (List ℕ)) → IsSeedsForm arguments words → IsTool words }
    ensures info_is { (arguments : InfoArguments) (words : List (List ℕ)) → IsInfoForm arguments words → IsTool words }
{}

/// Runs the words as the top call does, over a desk on which no call from outside fails. The status is never 4, 5 or 7.
pub fn run_surely(alloc: Global, words: &[String], desk: &mut SureDesk) -> u8
    ensures outcome { (told : OutcomeView) × (result ≡ status_of told) × Runs (command_of (map string_bytes words.now)) usage (map string_bytes words.now) (sure_told_by desk.old) (sure_told_by desk.new) told }
    ensures unfailed { IsUnfailed result }
{
    run_here(alloc, words, desk)
}

/// The same of the tools.
pub fn run_tools_surely(alloc: Global, words: &[String], desk: &mut SureDesk) -> u8
    ensures outcome { (told : OutcomeView) × (result ≡ status_of told) × RunsTool (map string_bytes words.now) (sure_told_by desk.old) (sure_told_by desk.new) told }
    ensures unfailed { IsUnfailed result }
{
    run_tools(alloc, words, desk)
}
