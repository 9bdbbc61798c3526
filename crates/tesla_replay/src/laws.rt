//! What is so of each history that a capture plays, as contracts of functions that do nothing.

ghost use Rattle.std.specs.Prelude.{◌≡◌, ◌++◌, ℕ, Bool, List, true};
ghost use Rattle.tesla_capture.specs.Capture.{Record};
ghost use Rattle.tesla_fitting.specs.declared.config.Config.{Config};
ghost use Rattle.tesla_receiver.specs.History.{IsLegal, arrivals_in};
ghost use Rattle.tesla_receiver.specs.Entries.{Entry};
ghost use Rattle.tesla_replay.specs.Played.{played};
ghost use Rattle.tesla_replay.specs.Records.{records_of, released_text};

/// The history that a capture plays: its answers are the ones that a receiver gives, and with its
/// end it writes the record of each released packet, in order, and of no other.
pub fn played_history()
    // Each entry has the one answer after those before it.
    ensures legal { (cfg : Config) (records : List Record) (whole : Bool) → IsLegal cfg (played cfg records whole) }
    // A whole capture's takes write all that is released of its arrivals.
    ensures all { (cfg : Config) (records : List Record) → records_of 0 (played cfg records true) ≡ released_text cfg (arrivals_in (played cfg records true)) }
{}

/// The release records of two histories stand one after the other.
pub fn records()
    ensures { (releaser : ℕ) (h more : List Entry) → records_of releaser (h ++ more) ≡ records_of releaser h ++ records_of releaser more }
{}
