//! The function that C calls to make a setup. It keeps nothing.

ghost use Rattle.std.specs.Prelude.{◌≡◌, ◌≢◌, ◌<◌, ◌≤◌, IsOk, IsOkAnd, MatchResult, length};
ghost use Rattle.tesla_commit.specs.SetupText.{IsSetup, setup_text};
ghost use Rattle.tesla_frame.specs.Written.{Begins};
ghost use Rattle.tesla_sender_setup.specs.Made.{setup_made};
ghost use Rattle.tesla_sender_setup.specs.Parameters.{parameters_of};
ghost use Rattle.tesla_c.specs.Making.{IsTooLong, IsUnmade, IsWrittenSetup, making_judged, parameters_judged, text_made};

use crate::parameters::{CParameters, parameters_in};
use crate::sender_answers::{CSenderRefusal, seeds_code_of};
use crate::sender_opening::{Unopened, refused};
use crate::status::{BAD_NUMBER, NO_MEMORY, OK, REFUSED, TOO_SMALL};
use std::alloc::Global;
use std::marker::Brand;
use std::sync::ledger::{Blank, Ledger};
use tesla_base::Steps;
use tesla_commit::{Setup, write_setup};
use tesla_seeds::{Seeds, SeedsRefusal, read_seeds};
use tesla_sender_setup::{Parameters, make_setup};

/// Makes a setup of the parameters and of the seeds that the text spells, as many as there are chains, in time in proportion to
/// the last interval times the chains. Its text is written at the start of the room, of which the rest stays as it was, and its
/// size is told. The first that applies is told: BAD_NUMBER with the place of the field, REFUSED with the line and the kind of
/// the seeds, NO_MEMORY, and TOO_SMALL with the size of the text, which is 4,096 at most.
#[unsafe(no_mangle)]
pub extern "C" fn tesla_setup_make(
    alloc: Global,
    parameters: &CParameters,
    seeds: &[u8],
    room: &mut [u8],
    size: &mut usize,
    refusal: &mut CSenderRefusal,
) -> u32
    ensures made { result ≡ 0 → IsOkAnd (making_judged parameters.now seeds.now) (λ setup. IsWrittenSetup setup size.new room.old room.new) }
    ensures refused { result ≡ 1 → making_judged parameters.now seeds.now ≡ Err (1, refusal.new) }
    ensures number { result ≡ 2 → making_judged parameters.now seeds.now ≡ Err (2, refusal.new) }
    ensures memory { result ≡ 3 → IsOk (parameters_judged parameters.now) }
    ensures small { result ≡ 9 → IsOkAnd (making_judged parameters.now seeds.now) (λ setup. IsTooLong setup size.new room.old) }
    ensures status { result ≢ 0 → result ≢ 1 → result ≢ 2 → result ≢ 9 → result ≡ 3 }
    ensures same { result ≢ 0 → room.new ≡ room.old }
    ensures told { result ≢ 1 → result ≢ 2 → refusal.new ≡ refusal.old }
    ensures size { result ≢ 0 → result ≢ 9 → size.new ≡ size.old }
{
    let parameters = match parameters_in(parameters) {
        Ok(parameters) => parameters,
        Err(line) => {
            *refusal = CSenderRefusal {
                text: 0,
                line,
                kind: 0,
                chain: 0,
            };
            return BAD_NUMBER;
        }
    };
    match text_of(alloc, &parameters, seeds) {
        Ok(text) => put(text.as_slice(), room, size),
        Err(Unopened::Refused(told)) => {
            *refusal = told;
            REFUSED
        }
        Err(Unopened::NoMemory) => NO_MEMORY,
    }
}

// Puts a text at the start of the room, where it fits, and tells its size.
fn put(text: &[u8], room: &mut [u8], size: &mut usize) -> u32
    ensures written { result ≡ 0 → Begins text.now room.old room.new }
    ensures small { result ≡ 9 → length room.old < length text.now }
    ensures status { result ≢ 0 → result ≡ 9 }
    ensures same { result ≢ 0 → room.new ≡ room.old }
    ensures size { size.new ≡ length text.now }
{
    *size = text.len();
    if room.len() < text.len() {
        return TOO_SMALL;
    }
    room[..text.len()].copy_from_slice(text);
    OK
}

// The text of the setup of the parameters and of the seeds that a text spells.
fn text_of(alloc: Global, parameters: &Parameters, seeds: &[u8]) -> Result<Vec<u8>, Unopened>
    ensures { MatchResult result (λ text. IsOkAnd (text_made (parameters_of parameters.now) seeds.now) (IsSetup text.items)) (IsUnmade (text_made (parameters_of parameters.now) seeds.now)) }
{
    let seeds = match read_seeds(alloc, seeds, parameters.delays.len() as u8) {
        Ok(seeds) => seeds,
        Err(SeedsRefusal::At { line, kind }) => {
            return Err(refused(2, line, seeds_code_of(kind), 0));
        }
        Err(SeedsRefusal::NoMemory) => return Err(Unopened::NoMemory),
    };
    let setup = counted::<Brand>(alloc, parameters, &seeds, Blank::new(1));
    match write_setup(alloc, &setup) {
        Ok(text) => Ok(text),
        Err(_) => Err(Unopened::NoMemory),
    }
}

// The setup of the parameters and the seeds, with a ledger for its evaluations of HMAC.
fn counted<L: Ledger>(alloc: Global, parameters: &Parameters, seeds: &Seeds, blank: Blank) -> Setup
    requires name { blank.name ≡ L.name }
    requires parts { blank.parts ≡ L.parts }
    requires some { 0 < L.parts }
    requires count { length seeds.now ≡ length parameters.now.delays.items }
    ensures { result ≡ setup_made (parameters_of parameters.now) seeds.now }
{
    let mut steps = Steps::<L>::new(blank);
    make_setup(alloc, parameters, seeds, &mut steps)
}
