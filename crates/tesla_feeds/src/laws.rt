//! The laws over feeds of lists, as contracts of functions that do nothing.

ghost use Rattle.tesla_feeds.specs.Laws.{DisordersAreTold, FeedsAccepted, FeedsAlone, FeedsApart, FeedsLasting, FeedsRest, FeedsWait};

/// A feed over a list of one stream is a feed of that stream: its calls, its refusals and its frames are the same, and it
/// makes no handover.
pub fn alone()
    ensures { FeedsAlone }
{}

/// The log of each stream is the log of a sender of it: each call, a handover too, is accepted after those before it.
pub fn accepted()
    ensures { FeedsAccepted }
{}

/// Where a feed over a list was opened at a reading of at least every reading of another's calls, over the same list or any
/// other, its calls of a stream are in later intervals than the other's of that stream: it uses no name again.
pub fn apart()
    ensures { FeedsApart }
{}

/// A feed over a list is a feed over the streams of it from the first one on that isn't over at the opening.
pub fn lasting()
    ensures { FeedsLasting }
{}

/// Nothing is made of an open feed at a rest before an interval behind that of the opening begins of some stream.
pub fn waits()
    ensures { FeedsWait }
{}

/// Behind an event nothing is sent at a rest before the next interval begins of a stream that tells more keys: no handover and
/// no key is due until then.
pub fn rests()
    ensures { FeedsRest }
{}

/// Streams follow one another and have different numbers exactly where `first_disorder` gives no pair of them.
pub fn ordered()
    ensures { DisordersAreTold }
{}
