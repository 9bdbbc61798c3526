//! The law that joins the two receivers of a stream that hands over, as a contract of a function that does nothing.

ghost use Rattle.tesla_laws.specs.Rolled.{FollowedIsRolled};

/// Where at most three epochs were opened, no message was given before its key, and no setup was refused for equal
/// commitments, a followed history is that of epochs which all stay open, of the same events and with memory for each
/// epoch: every verdict, every packet with its epoch and what its payload came to, and every epoch are the same.
///
/// Positions are left out: a follower counts its records over all epochs, a `Rollover` the packets of each.
pub fn as_rolled()
    ensures { FollowedIsRolled }
{}
