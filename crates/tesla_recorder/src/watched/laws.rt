//! What is so of the packets of every legal history, by chain, as the contract of a function that does nothing.

ghost use Rattle.tesla_recorder.specs.watched.Chains.{ChainsAddUp};

/// The packets that a legal history gave are those of the chains of its setup together.
pub fn chains_add_up()
    ensures { ChainsAddUp }
{}
