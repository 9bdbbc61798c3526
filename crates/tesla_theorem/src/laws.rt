//! The theorem, as contracts of functions that do nothing.

ghost use Rattle.tesla_theorem.specs.Theorem.{GivenAreAuthentic, GivenOnce};

/// Whatever a receiver gives came while the security condition held, was buffered, and was then authenticated by a
/// disclosed key of its chain that leads to the commitment (RFC 4082, sections 3.2 and 3.5).
pub fn authentic()
    ensures { GivenAreAuthentic }
{
    tesla_receiver::laws::by_index();
    tesla_receiver::laws::prefixes();
    tesla_receiver::laws::kept();
    tesla_receiver::laws::new_keys();
}

/// No two packets of one name are given, so a packet that is sent twice is given once.
pub fn once()
    ensures { GivenOnce }
{
    tesla_receiver::laws::by_index();
    tesla_receiver::laws::prefixes();
}
