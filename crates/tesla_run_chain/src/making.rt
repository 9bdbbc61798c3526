//! The setup that is made from seeds.

ghost use Rattle.std.specs.Prelude.{◌≡◌, ◌<◌, length};
ghost use Rattle.tesla_sender_setup.specs.Made.{setup_made};
ghost use Rattle.tesla_sender_setup.specs.Parameters.{parameters_of};

use std::alloc::Global;
use std::marker::Brand;
use std::sync::ledger::{Blank, Ledger};
use tesla_base::Steps;
use tesla_commit::Setup;
use tesla_seeds::Seeds;
use tesla_sender_setup::{Parameters, make_setup};

/// The setup of the parameters with these seeds, of which there is one for each delay.
pub fn setup_of(alloc: Global, parameters: &Parameters, seeds: &Seeds) -> Setup
    requires { length seeds.now ≡ length parameters.now.delays.items }
    ensures { result ≡ setup_made (parameters_of parameters.now) seeds.now }
{
    counted::<Brand>(alloc, parameters, seeds, Blank::new(1))
}

// The same, with a ledger for its evaluations of HMAC.
fn counted<L: Ledger>(alloc: Global, parameters: &Parameters, seeds: &Seeds, blank: Blank) -> Setup
    requires name { blank.name ≡ L.name }
    requires parts { blank.parts ≡ L.parts }
    requires some { 0 < L.parts }
    requires count { length seeds.now ≡ length parameters.now.delays.items }
    ensures { result ≡ setup_made (parameters_of parameters.now) seeds.now }
{
    let mut steps = Steps::<L>::new(blank);
    make_setup(alloc, parameters, seeds, &mut steps)
}
