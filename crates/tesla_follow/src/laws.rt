//! What is so of every followed history, as contracts of functions that do nothing.

ghost use Rattle.std.specs.Prelude.{◌≡◌, ◌<◌, ◌++◌, ℕ, suc, List, Some, flat_map, length, map, slice_get};
ghost use Rattle.tesla_base.specs.declared.release.Head.{Head};
ghost use Rattle.tesla_fitting.specs.declared.config.Config.{Config};
ghost use Rattle.tesla_receiver.specs.Entries.{Entry};
ghost use Rattle.tesla_receiver.specs.History.{IsLegal};
ghost use Rattle.tesla_receiver.specs.declared.history.Entry.TheVariants.{Taken};
ghost use Rattle.tesla_follow.specs.Followed.{config_of};
ghost use Rattle.tesla_follow.specs.History.{FollowEntry, IsFollowed, followed};
ghost use Rattle.tesla_follow.specs.Laws.{IsHandedOver, IsPromised, accepted_by, entry_in_one, epoch_numbered, given_by, given_early, message_at, told_of};
ghost use Rattle.tesla_follow.specs.declared.answers.FollowReply.TheVariants.{Early};

/// Each epoch's part of a history is a legal history of a receiver with the epoch's configuration: so each law of one
/// receiver holds of each epoch.
pub fn epochs()
    ensures { (cfg : Config) (h : List FollowEntry) (epoch : ℕ) → IsLegal (epoch_numbered cfg h epoch).config (epoch_numbered cfg h epoch).history }
{}

/// What was told stays told.
pub fn prefixes()
    // A prefix of a followed history is one.
    ensures legal { (cfg : Config) (h more : List FollowEntry) → IsFollowed cfg (h ++ more) → IsFollowed cfg h }
    // Each epoch keeps its number and its configuration.
    ensures configs { (cfg : Config) (h more : List FollowEntry) → (rest : List Config) × (map config_of (followed cfg (h ++ more)).epochs ≡ map config_of (followed cfg h).epochs ++ rest) }
    // Each epoch's history only grows.
    ensures histories { (cfg : Config) (h more : List FollowEntry) (epoch : ℕ) → (rest : List Entry) × ((epoch_numbered cfg (h ++ more) epoch).history ≡ (epoch_numbered cfg h epoch).history ++ rest) }
{}

/// The setup of each epoch after the first was handed over by a packet that the epoch before gave. So the trust in each
/// setup goes back, through packets that were given, to the first setup.
pub fn handovers()
    ensures { (cfg : Config) (h : List FollowEntry) (epoch : ℕ) → suc epoch < length (followed cfg h).epochs → IsHandedOver cfg h epoch }
{}

/// Each packet that an epoch gives is told once, as one of this epoch, in the order in which the epoch gave them.
pub fn given()
    ensures { (cfg : Config) (h : List FollowEntry) (epoch : ℕ) → IsFollowed cfg h → flat_map (told_of epoch) h ≡ flat_map given_by (epoch_numbered cfg h epoch).history }
{}

/// Messages that are accepted on arrival.
pub fn early()
    // Each that is given was accepted in its epoch, and the trust in it goes back, through messages that the epoch accepted, to
    // a packet that the epoch gave.
    ensures promised { (cfg : Config) (h : List FollowEntry) (place releaser epoch : ℕ) (head : Head) (payload : List ℕ) → IsFollowed cfg h →
        slice_get h place ≡ Some (Taken releaser (Early epoch head payload)) → IsPromised (epoch_numbered cfg h epoch) (message_at head payload) }
    // Those that were accepted are those that were given, in the same order, and behind them those that wait: each is given once.
    ensures order { (cfg : Config) (h : List FollowEntry) → IsFollowed cfg h → flat_map accepted_by h ≡ flat_map given_early h ++ (followed cfg h).queue }
{}

/// Where one epoch was opened and no message was given before its key, the answers are those of one receiver.
pub fn one_epoch()
    ensures { (cfg : Config) (h : List FollowEntry) → IsFollowed cfg h → length (followed cfg h).epochs ≡ 1 → (followed cfg h).early ≡ 0 → map entry_in_one h ≡ (epoch_numbered cfg h 0).history }
{}
