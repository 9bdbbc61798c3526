//! A receiver that threads share by turns.

ghost use Rattle.tesla_receiver.specs.Stands.{Stands};

use crate::{Entry, Receiver};
use tesla_base::Chronicle;
use tesla_fitting::Config;

/// The histories of a receiver are those that it stands for; no event changes what it is set up with.
impl Chronicle for Receiver {
    type Entry = Entry;

    type Config = Config;

    ghost config = { λ receiver. receiver.config };

    ghost stands = { Stands };
}
