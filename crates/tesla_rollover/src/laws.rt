//! What is so of every history of epochs, as contracts of functions that do nothing.

ghost use Rattle.std.specs.Prelude.{◌≡◌, ◌≢◌, ◌↔◌, ◌++◌, ℕ, List, Some, true, false};
ghost use Rattle.tesla_fitting.specs.declared.config.Config.{Config};
ghost use Rattle.tesla_receiver.specs.History.{IsLegal};
ghost use Rattle.tesla_receiver.specs.Entries.{Entry};
ghost use Rattle.tesla_rollover.specs.Epochs.{IsRollLegal, next_of};
ghost use Rattle.tesla_rollover.specs.Handover.{IsHandover, handover_text};
ghost use Rattle.tesla_rollover.specs.History.{RollEntry, config_at, configs_in, history_at};
ghost use Rattle.tesla_rollover.specs.Laws.{GivenAreReleased, RollFinishes, SetupsAreHandedOver};
ghost use Rattle.tesla_rollover.specs.declared.answers.Next.TheVariants.{NoMemory, Opened};

/// Each epoch's part of a legal history is a legal history of a receiver with the epoch's configuration: so each law of
/// one receiver holds of each epoch.
pub fn epochs()
    ensures { (cfg : Config) (h : List RollEntry) → IsRollLegal cfg h → (epoch : ℕ) → IsLegal (config_at cfg h epoch) (history_at cfg.ingests h epoch) }
{}

/// The setup of each epoch after the first was handed over by a packet that the epoch before gave, and it is of a stream
/// of its own. So the trust in each setup goes back, through packets that were given, to the first setup.
pub fn handovers()
    ensures { SetupsAreHandedOver }
{}

/// Each packet that an epoch gives is the next one that is released of the epoch's own arrivals, by its own setup.
pub fn given()
    ensures { GivenAreReleased }
{}

/// What was told stays told: of the first entries it is a prefix of what all of them tell.
pub fn prefixes()
    // A prefix of a legal history is legal.
    ensures legal { (cfg : Config) (h more : List RollEntry) → IsRollLegal cfg (h ++ more) → IsRollLegal cfg h }
    // Each epoch's history only grows.
    ensures histories { (ingests : ℕ) (h more : List RollEntry) (epoch : ℕ) → (rest : List Entry) × (history_at ingests (h ++ more) epoch ≡ history_at ingests h epoch ++ rest) }
    // Each epoch keeps its number and its configuration.
    ensures configs { (cfg : Config) (h more : List RollEntry) → (rest : List Config) × (configs_in cfg (h ++ more) ≡ configs_in cfg h ++ rest) }
{}

/// A payload hands over to a text exactly where it is the mark and this text behind it.
pub fn handover()
    ensures { (payload text : List ℕ) → (handover_text payload ≡ Some text ↔ IsHandover payload text) }
{}

/// Want of memory is told only of a packet that would have opened an epoch; what other payloads come to is told whatever
/// memory there is.
pub fn memory()
    ensures wanting { (configs : List Config) (epoch : ℕ) (payload : List ℕ) → next_of configs epoch false payload ≡ NoMemory → next_of configs epoch true payload ≡ Opened }
    ensures alike { (configs : List Config) (epoch : ℕ) (payload : List ℕ) → next_of configs epoch true payload ≢ Opened → next_of configs epoch false payload ≡ next_of configs epoch true payload }
{}

/// What a legal history is finished with, where there is one ingest: its end, a take that gives for each packet that waits
/// in any epoch, also where it opens one, and a take that is over.
pub fn finished_takes()
    ensures { (cfg : Config) (h : List RollEntry) → cfg.ingests ≡ 1 → IsRollLegal cfg h → RollFinishes cfg h }
{}
