//! What a relay rests on.

ghost use Rattle.tesla_relay.specs.Due.{Basis, nothing};

use std::marker::Brand;

/// What a relay rests on: the datagrams that links have brought, and the posts at its start. It is named, so that what
/// its queues hold is known to rest on it.
pub trait Based {
    ghost basis: { Basis };
}

impl Based for Brand {
    ghost basis = { nothing };
}
