//! What is printed of faults, and that no key is.

ghost use Rattle.std.specs.Prelude.{◌≡◌, ◌<◌};

use std::alloc::Global;
use std::marker::Brand;
use std::sync::ledger::{Blank, Ledger};
use std::test::*;
use tesla_base::{ChainNo, Key, Kind, NumberFault, Steps};
use tesla_capture::RecordKind;
use tesla_chain::Traversal;
use tesla_keys::{Offer, Verifier};
use tesla_prf::PreparedKey;
use tesla_seeds::read_seeds;
use tesla_sender::SenderRefusal;
use tesla_test_desk::SEEDS;

#[test]
fn faults(rt: HostRuntime) -> Result<(), Fail> {
    for (fault, wanted) in [
        (NumberFault::Empty, "no digits"),
        (NumberFault::NotDigit(3), "no digit at place 3"),
        (NumberFault::LeadingZero, "a leading zero"),
        (NumberFault::TooLarge, "a number too large"),
    ] {
        assert_eq!(rt; format!(in rt.alloc(); "{fault}")?.as_str(), wanted);
    }
    let kind = RecordKind::TooLarge;
    assert_eq!(rt; format!(in rt.alloc(); "{kind}")?.as_str(), "TooLarge");
    assert_eq!(rt; kind.name(), "TooLarge");
    Ok(())
}

// What holds a key, as it is printed.
fn printed<L: Ledger>(alloc: Global, blank: Blank) -> Result<String, Fail>
    requires name { blank.name ≡ L.name }
    requires parts { blank.parts ≡ L.parts }
    requires some { 0 < L.parts }
{
    let mut steps = Steps::<L>::new(blank);
    let key = Key([0x11; 32]);
    let traversal = Traversal::open(alloc, key, 8, &mut steps)?;
    let seeds = read_seeds(alloc, SEEDS.as_bytes(), 2)?;
    let (prepared, verifier) = (PreparedKey::new(&key), Verifier::new(1, key));
    let bad = Offer::Bad { walked: key };
    let wrong = SenderRefusal::WrongSeed {
        chain: ChainNo(1),
        made: key,
    };
    Ok(format!(in alloc; "{traversal:?} {seeds:?} {prepared:?} {verifier:?} {bad:?} {wrong:?}")?)
}

#[test]
fn no_key_is_printed(rt: HostRuntime) -> Result<(), Fail> {
    assert_eq!(rt;
        printed::<Brand>(rt.alloc(), Blank::new(1))?.as_str(),
        "Traversal { .. } Seeds { .. } PreparedKey { .. } Verifier { index: 1, key: Key(..) } Bad { walked: Key(..) } WrongSeed { chain: ChainNo(1), made: Key(..) }"
    );
    Ok(())
}
