//! The laws over feeds, as contracts of functions that do nothing.

ghost use Rattle.tesla_feed.specs.Laws.{FeedsApart, FeedsAreAccepted, FeedsEnd};

/// A feed's log is the log of a sender: each call is accepted after those before it.
pub fn accepted()
    ensures { FeedsAreAccepted }
{}

/// Where a feed was opened at a reading of at least every reading of another's calls, each of its calls is in a later
/// interval than all of the other's: a feed that is started again shares no interval with the one before, and uses no
/// name again.
pub fn apart()
    ensures { FeedsApart }
{}

/// A feed that is over when it is opened makes no call and tells no key.
pub fn ended()
    ensures { FeedsEnd }
{}
