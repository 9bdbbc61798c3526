//! What all the chains of a sender do for a message or a disclosure.

ghost use Rattle.std.specs.Prelude.{◌≡◌, ◌+◌, ◌≤◌, ◌++◌, length, map, take, vec_capacity};
ghost use Rattle.std.specs.List.{All, AllByRecursion, flat_map, sum_by};
ghost use Rattle.tesla_frame.specs.Written.{HasLength};
ghost use Rattle.tesla_sender.specs.Made.{any_due, due_row, key_due, tells_all, tells_newer};
ghost use Rattle.tesla_sender.specs.Chains.{chain_in, left_in, reserved_by, CanTag, HasMade, HasReached, IsPrepared, IsReady, steps_to, tag_made};

use crate::chain::SendingChain;
use std::sync::ledger::Ledger;
use tesla_base::{Key, Name, Steps, WideTag};
use tesla_commit::Setup;
use tesla_frame::KeyRow;

/// A message, and the name that it is sent under.
#[derive(Clone, Copy, Debug)]
pub struct Message<'a> {
    /// The name.
    pub name: Name,
    /// The bytes of the message.
    pub payload: &'a [u8],
}

/// Makes the MAC key of each chain of an interval, where it isn't there: at most one counted step a chain, and one key
/// a chain is prepared beside it.
pub fn prepare_all<L: Ledger>(chains: &mut Vec<SendingChain>, interval: u32, steps: &mut Steps<L>)
    requires some { 1 ≤ interval }
    requires made { All (CanTag interval) chains.old.items }
    ensures same { map chain_in chains.new.items ≡ map chain_in chains.old.items }
    ensures prepared { All (IsPrepared interval) chains.new.items }
    ensures cost { steps.new ≤ steps.old + length chains.old.items }
    ensures left { sum_by left_in chains.new.items ≡ sum_by left_in chains.old.items }
    ensures reserved { reserved_by (vec_capacity chains.new) chains.new.items ≡ reserved_by (vec_capacity chains.old) chains.old.items }
{
    for i in 0..chains.len() {
        chains[i].make_mac(interval, steps);
    }
}

/// Makes the keys of each chain up to that of an interval. No key is prepared.
pub fn advance_all<L: Ledger>(chains: &mut Vec<SendingChain>, interval: u32, steps: &mut Steps<L>)
    requires { All (IsReady interval) chains.old.items }
    ensures same { map chain_in chains.new.items ≡ map chain_in chains.old.items }
    ensures reached { All (HasReached interval) chains.new.items }
    ensures call { steps.new ≤ steps.old + sum_by (steps_to interval) chains.old.items }
    ensures left { steps.new + sum_by left_in chains.new.items ≤ steps.old + sum_by left_in chains.old.items }
    ensures reserved { reserved_by (vec_capacity chains.new) chains.new.items ≡ reserved_by (vec_capacity chains.old) chains.old.items }
{
    for i in 0..chains.len() {
        chains[i].advance(interval, steps);
    }
}

/// Puts the tags of a message from a place on, one for each chain: so many counted steps. No key is prepared.
pub fn put_tags<L: Ledger>(
    chains: &[SendingChain],
    setup: &Setup,
    message: &Message<'_>,
    at: usize,
    tags: &mut [WideTag],
    steps: &mut Steps<L>,
)
    requires room { at + length chains.now ≤ length tags.old }
    requires some { 1 ≤ message.now.name.interval }
    requires prepared { All (IsPrepared message.now.name.interval) chains.now }
    ensures tags { take (at + length chains.now) tags.new ≡ take at tags.old ++ map (tag_made setup.now message.now.name message.now.payload.now) (map chain_in chains.now) }
    ensures lengths { AllByRecursion (HasLength setup.now.tag_length) (map (tag_made setup.now message.now.name message.now.payload.now) (map chain_in chains.now)) }
    ensures cost { steps.new ≡ steps.old + length chains.now }
{
    match chains {
        [chain, chains @ ..] => {
            tags[at] = chain.tag(setup, message.name, message.payload, steps);
            put_tags(chains, setup, message, at + 1, tags, steps);
        }
        [] => {}
    }
}

/// Puts the keys that are due in an interval from a place on, one for each chain where there is one.
pub fn put_keys(chains: &[SendingChain], interval: u32, at: usize, keys: &mut [Option<Key>])
    requires room { at + length chains.now ≤ length keys.old }
    requires prepared { All (IsPrepared interval) chains.now }
    ensures { take (at + length chains.now) keys.new ≡ take at keys.old ++ map (key_due interval) (map chain_in chains.now) }
{
    match chains {
        [chain, chains @ ..] => {
            keys[at] = chain.key_due(interval);
            put_keys(chains, interval, at + 1, keys);
        }
        [] => {}
    }
}

/// Puts the rows of a disclosure from a place on, one for each chain that has a key to disclose, and gives the
/// place after them.
pub fn put_due(chains: &[SendingChain], interval: u64, at: usize, rows: &mut [KeyRow]) -> usize
    requires room { at + length chains.now ≤ length rows.old }
    requires made { All (HasMade interval) chains.now }
    ensures next { result ≡ at + length (flat_map (due_row interval) (map chain_in chains.now)) }
    ensures few { result ≤ at + length chains.now }
    ensures rows { take result rows.new ≡ take at rows.old ++ flat_map (due_row interval) (map chain_in chains.now) }
{
    match chains {
        [chain, chains @ ..] => match chain.row_due(interval) {
            Some(row) => {
                rows[at] = row;
                put_due(chains, interval, at + 1, rows)
            }
            None => put_due(chains, interval, at, rows),
        },
        [] => at,
    }
}

/// Whether some chain has a key to disclose in the interval.
pub fn any_due(chains: &[SendingChain], interval: u64) -> bool
    ensures { result ≡ any_due interval (map chain_in chains.now) }
{
    match chains {
        [chain, chains @ ..] => chain.is_due(interval) || any_due(chains, interval),
        [] => false,
    }
}

/// Whether on some chain a call in an interval tells a newer key than one in the interval `before`.
pub fn tells_newer(chains: &[SendingChain], before: u64, interval: u64) -> bool
    ensures { result ≡ tells_newer before interval (map chain_in chains.now) }
{
    match chains {
        [chain, chains @ ..] => {
            chain.index_disclosed(before) < chain.index_disclosed(interval)
                || tells_newer(chains, before, interval)
        }
        [] => false,
    }
}

/// Whether on every chain a call in an interval tells the key of this index or a newer one.
pub fn tells_all(chains: &[SendingChain], index: u64, interval: u64) -> bool
    ensures { result ≡ tells_all index interval (map chain_in chains.now) }
{
    match chains {
        [chain, chains @ ..] => {
            index <= chain.index_disclosed(interval) && tells_all(chains, index, interval)
        }
        [] => true,
    }
}
