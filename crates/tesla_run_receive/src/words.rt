//! The words of the command `receive`.

ghost use Rattle.std.specs.Prelude.{◌≡◌, [], ◌∷◌, Some, None, IfSome, true, false, map, string_bytes, option_map, codes};
ghost use Rattle.tesla_run_receive.specs.Arguments.{ReceiveArguments, IsReceive, AreOthers, arguments_of};
ghost use Rattle.tesla_session.specs.Session.{name_of};

use crate::arguments::Arguments;
use tesla_base::read_signed;
use tesla_front::{is_name, limits_in, read_names};

/// The name of the command.
const NAME: &str = "receive";

/// Whether none of the names is this one.
pub fn are_others(name: &str, others: &[&str]) -> bool
    ensures yes { result ≡ true → AreOthers name.now (map name_of others.now) }
    ensures no { result ≡ false → AreOthers name.now (map name_of others.now) → ⊥ }
{
    match others {
        [other, others @ ..] => {
            if *other == name {
                return false;
            }
            are_others(name, others)
        }
        [] => true,
    }
}

/// What the words after the command ask for, as `arguments_in` says.
pub fn read_words<'a>(
    setup: &'a str,
    lag: &[u8],
    capacity: &[u8],
    links: &'a str,
    sinks: &'a str,
) -> Option<Arguments<'a>>
    ensures found { IfSome result (λ arguments. IsReceive (arguments_of arguments) (codes "receive" ∷ setup.now ∷ lag.now ∷ capacity.now ∷ links.now ∷ sinks.now ∷ [])) }
    ensures only { (arguments : ReceiveArguments) → IsReceive arguments (codes "receive" ∷ setup.now ∷ lag.now ∷ capacity.now ∷ links.now ∷ sinks.now ∷ []) → option_map arguments_of result ≡ Some arguments }
{
    if !is_name(setup) {
        return None;
    }
    let Ok(lag) = read_signed(lag) else {
        return None;
    };
    let Some(limits) = limits_in(capacity) else {
        return None;
    };
    let Some(links) = read_names(links) else {
        return None;
    };
    let Some(sinks) = read_names(sinks) else {
        return None;
    };
    if !are_others(setup, sinks.as_slice()) {
        return None;
    }
    Some(Arguments {
        setup,
        lag,
        limits,
        links,
        sinks,
    })
}

/// What the words ask for. `None` exactly where they are not of the form `receive SETUP LAG CAPACITY LINKS SINKS`: each word is
/// there, LAG is a signed decimal of 64 bits, CAPACITY is a decimal from 1 to 65,536 or two with a slash between them of
/// which the second is from 1 to the first, LINKS and SINKS are 1 to 32 different names each, with a comma between two, no name is empty
/// or the console's, and no sink is SETUP.
pub fn arguments_in(words: &[String]) -> Option<Arguments<'_>>
    // What is found is spelled so.
    ensures found { IfSome result (λ arguments. IsReceive (arguments_of arguments) (map string_bytes words.now)) }
    // What is spelled so is found.
    ensures only { (arguments : ReceiveArguments) → IsReceive arguments (map string_bytes words.now) → option_map arguments_of result ≡ Some arguments }
{
    let [command, setup, lag, capacity, links, sinks] = words else {
        return None;
    };
    if command.as_str() != NAME {
        return None;
    }
    read_words(
        setup.as_str(),
        lag.as_bytes(),
        capacity.as_bytes(),
        links.as_str(),
        sinks.as_str(),
    )
}
