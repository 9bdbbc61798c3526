//! The words of a command with one output more.

ghost use Rattle.std.specs.Prelude.{◌≡◌, ◌≢◌, [], ◌∷◌, ℕ, Some, IfSome, true, false, map, string_bytes, option_map};
ghost use Rattle.tesla_front.specs.Words.{IsName, IsNumberWithin};
ghost use Rattle.tesla_run_receive.specs.Arguments.{AreOthers};
ghost use Rattle.tesla_run_receive.specs.Arguments as receiving;
ghost use Rattle.tesla_run_receive.specs.OutputArguments.{OutputArguments, IsOutputForm, arguments_of, last_words};

use crate::arguments::Arguments;
use crate::output_arguments::OutputWords;
use crate::output_form::{Form, Order};
use crate::words::{are_others, read_words};
use tesla_front::{is_name, number_in};

// Whether a word is a name of a file, and of none that the words of `receive` name.
fn is_output(word: &str, receive: &Arguments<'_>) -> bool
    ensures yes { result ≡ true → IsName word.now × (word.now ≢ receive.now.setup.now) × AreOthers word.now receive.now.sinks }
    ensures no { result ≡ false → IsName word.now → word.now ≢ receive.now.setup.now → AreOthers word.now receive.now.sinks → ⊥ }
{
    if !is_name(word) {
        return false;
    }
    if word == receive.setup {
        return false;
    }
    are_others(word, receive.sinks.as_slice())
}

// The number from 1 to the greatest that a word spells.
fn number_up_to(greatest: u32, word: &[u8]) -> Option<u32>
    ensures found { IfSome result (λ n. IsNumberWithin 1 greatest word.now n) }
    ensures only { (n : ℕ) → IsNumberWithin 1 greatest word.now n → result ≡ Some n }
{
    match number_in(word, 1, u64::from(greatest)) {
        Some(number) => Some(number as u32),
        None => None,
    }
}

// Whether a word is the name of the command.
fn is_command(form: &Form, word: &str) -> bool
    ensures yes { result ≡ true → word.now ≡ form.now.name.now }
    ensures no { result ≡ false → word.now ≢ form.now.name.now }
{
    word == form.name
}

// The output and the number, of the last two words.
fn in_order<'a>(order: Order, seventh: &'a str, eighth: &'a str) -> (&'a str, &'a str)
    ensures { last_words order result.0.now result.1.now ≡ seventh.now ∷ eighth.now ∷ [] }
{
    match order {
        Order::NumberFirst => (eighth, seventh),
        Order::OutputFirst => (seventh, eighth),
    }
}

// What all words ask for, told those of `receive`, the output and the number.
fn read_more<'a>(
    receive: Arguments<'a>,
    output: &'a str,
    number: &[u8],
    greatest: u32,
) -> Option<OutputWords<'a>>
    ensures found { IfSome result (λ arguments. (receiving.arguments_of arguments.receive ≡ receiving.arguments_of receive.entry) × (arguments.output.now ≡ output.now) × IsNumberWithin 1 greatest number.now arguments.number × IsName output.now × (output.now ≢ receive.entry.setup.now) × AreOthers output.now receive.entry.sinks) }
    ensures only { (n : ℕ) → IsNumberWithin 1 greatest number.now n → IsName output.now → output.now ≢ receive.entry.setup.now → AreOthers output.now receive.entry.sinks → option_map arguments_of result ≡ Some (record { receive = receiving.arguments_of receive.entry; output = output.now; number = n }) }
{
    let Some(number) = number_up_to(greatest, number) else {
        return None;
    };
    if !is_output(output, &receive) {
        return None;
    }
    Some(OutputWords {
        receive,
        output,
        number,
    })
}

/// What the words ask for. `None` exactly where they are not of the form: without the last two they are as those of `receive`,
/// the output is no empty name, not the console's, not SETUP and no sink, and the number is a decimal from 1 to the greatest.
pub fn output_words_in<'a>(form: &Form, words: &'a [String]) -> Option<OutputWords<'a>>
    // What is found is spelled so.
    ensures found { IfSome result (λ arguments. IsOutputForm form.now.name.now form.now.greatest form.now.order (arguments_of arguments) (map string_bytes words.now)) }
    // What is spelled so is found.
    ensures only { (arguments : OutputArguments) → IsOutputForm form.now.name.now form.now.greatest form.now.order arguments (map string_bytes words.now) → option_map arguments_of result ≡ Some arguments }
{
    let [command, setup, lag, capacity, links, sinks, seventh, eighth] = words else {
        return None;
    };
    if !is_command(form, command.as_str()) {
        return None;
    }
    let (output, number) = in_order(form.order, seventh.as_str(), eighth.as_str());
    let receive = read_words(
        setup.as_str(),
        lag.as_bytes(),
        capacity.as_bytes(),
        links.as_str(),
        sinks.as_str(),
    );
    let Some(receive) = receive else {
        return None;
    };
    read_more(receive, output, number.as_bytes(), form.greatest)
}
