//! Commitments that are equal.

ghost use Rattle.std.specs.Prelude.{◌≡◌, ◌<◌, length, take};
ghost use Rattle.tesla_commit.specs.Equal.{first_equal, is_had};

use crate::Setup;

/// Whether a chain has the commitment of a chain before it.
fn has_equal(setup: &Setup, chain: u8) -> bool
    requires { chain < length setup.now.rows }
    ensures { result ≡ is_had setup.now.rows chain }
{
    let own = setup.row(chain);
    for other in 0..chain {
        if setup.row(other).key.0.as_slice() == own.key.0.as_slice() {
            return true;
        }
    }
    false
}

/// The first chain that has the commitment of a chain before it, if one has.
pub fn first_equal(setup: &Setup) -> Option<u8>
    ensures { result ≡ first_equal setup.now.rows }
{
    for chain in 0..setup.count() {
        if has_equal(setup, chain) {
            return Some(chain);
        }
    }
    None
}
