//! A link of the local machine that is told a wait.

ghost use Rattle.std.specs.Prelude.{◌≡◌, true};

use tesla_desk::{Environment, Got, Link};
use tesla_live::{Command, Gates, LiveDesk};

// How many quiets a link tells that is told a wait of 5 milliseconds, and what it answers behind them.
fn quiets_of<K: Link>(link: &mut K) -> (u32, Got)
    requires { (link : K) → K.may_ask link ≡ true }
{
    link.wait_at_most(5_000);
    let mut into = [0; 2048];
    for quiets in 0..100 {
        let got = link.next(&mut into);
        if got != Got::Quiet {
            return (quiets, got);
        }
    }
    (100, Got::Quiet)
}

// The system may make each wait longer, and 20 of 5 milliseconds are the whole tenth of a second.
#[test]
fn a_link_that_is_told_a_wait_is_quiet_sooner_and_ends_as_late(rt: HostRuntime) {
    let gates = Gates::new();
    let mut desk = LiveDesk::new(&rt, &gates, Command::Other);
    let Ok(mut link) = desk.open_link("127.0.0.1:0/1") else {
        panic!(rt; "no link")
    };
    let (quiets, last) = quiets_of(&mut link);
    desk.close_link(link);
    assert!(rt; 2 <= quiets && quiets < 20, "{quiets}");
    assert_eq!(rt; last, Got::End);
}
