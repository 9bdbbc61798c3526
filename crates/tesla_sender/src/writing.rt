//! The frames of a sender.

ghost use Rattle.std.specs.Prelude.{◌≡◌, ◌+◌, ◌≤◌, true, length, map};
ghost use Rattle.std.specs.List.{All};
ghost use Rattle.tesla_sender.specs.Made.{any_due, disclosure_frame, message_frame};
ghost use Rattle.tesla_sender.specs.Chains.{chain_in, AreNumbered, HasMade, IsPrepared};
ghost use Rattle.tesla_sender.specs.Stands.{IsWritten};

use crate::chain::SendingChain;
use crate::limits::MOST_CHAINS;
use crate::rows::{Message, put_due, put_keys, put_tags};
use std::sync::ledger::Ledger;
use tesla_base::{ChainNo, KEY_BYTES, Key, MOST_DATAGRAM, MOST_TAG_BYTES, Name, Steps, WideTag};
use tesla_commit::Setup;
use tesla_frame::{KeyRow, write_data, write_disclosure};

/// Writes the data frame of a message of that name, and gives its length: as many counted steps as chains. No key is
/// prepared.
pub fn write_message<L: Ledger>(
    chains: &[SendingChain],
    setup: &Setup,
    name: Name,
    payload: &[u8],
    into: &mut [u8; MOST_DATAGRAM],
    steps: &mut Steps<L>,
) -> usize
    requires same { length chains.now ≡ length setup.now.rows }
    requires some { 1 ≤ name.interval }
    requires prepared { All (IsPrepared name.interval) chains.now }
    requires limit { length payload.now ≤ 1200 }
    ensures written { IsWritten (message_frame setup.now (map chain_in chains.now) name payload.now) result into.old into.new }
    ensures cost { steps.new ≡ steps.old + length chains.now }
{
    let count = usize::from(setup.count());
    let none = WideTag {
        bytes: [0; MOST_TAG_BYTES],
        length: 0,
    };
    let mut tags = [none; MOST_CHAINS];
    let mut keys = [None; MOST_CHAINS];
    let message = Message { name, payload };
    put_tags(chains, setup, &message, 0, &mut tags, steps);
    put_keys(chains, name.interval, 0, &mut keys);
    write_data(
        setup.version(),
        setup.stream(),
        name,
        payload,
        &tags[..count],
        &keys[..count],
        into,
    )
}

/// Writes the disclosure frame of an interval in which some chain has a key to disclose, and gives its length.
pub fn write_due(
    chains: &[SendingChain],
    setup: &Setup,
    interval: u64,
    into: &mut [u8; MOST_DATAGRAM],
) -> usize
    requires same { length chains.now ≡ length setup.now.rows }
    requires numbered { AreNumbered 0 (map chain_in chains.now) }
    requires made { All (HasMade interval) chains.now }
    requires due { any_due interval (map chain_in chains.now) ≡ true }
    ensures { IsWritten (disclosure_frame setup.now (map chain_in chains.now) interval) result into.old into.new }
{
    let none = KeyRow {
        chain: ChainNo(0),
        index: 0,
        key: Key([0; KEY_BYTES]),
    };
    let _count = setup.count();
    let mut rows = [none; MOST_CHAINS];
    let end = put_due(chains, interval, 0, &mut rows);
    write_disclosure(setup.version(), setup.stream(), &rows[..end], into)
}
