//! The chains of a setup, and sets of chains.

ghost use Rattle.std.specs.Prelude.{◌≡◌, ◌<◌};
ghost use Rattle.tesla_clock.specs.Safe.{has_chain};
ghost use Rattle.tesla_fitting.specs.Config.{chain_row};

use crate::Config;
use tesla_base::{KEY_BYTES, Key};
use tesla_commit::ChainRow;

/// The commitment and delay of a chain, or an empty row where the setup has no such chain.
pub fn chain_row(config: &Config, chain: u8) -> ChainRow
    ensures { result ≡ chain_row config.now chain }
{
    if chain < config.setup.count() {
        config.setup.row(chain)
    } else {
        ChainRow {
            delay: 0,
            index: 0,
            key: Key([0; KEY_BYTES]),
        }
    }
}

/// Whether bit `chain` of a set of chains is set.
pub fn has_chain(set: u8, chain: u8) -> bool
    requires { chain < 8 }
    ensures { result ≡ has_chain set chain }
{
    (set >> chain) % 2 == 1
}
