//! Turns over a list of numbers and over a sum, of one thread and of several.

ghost use Rattle.std.specs.Prelude.{◌≡◌, ◌+◌, ◌<◌, ◌≤◌, ◌^◌, length, IfOk};
ghost use Rattle.tesla_turn.specs.Examples.{IsLegal};
ghost use Rattle.tesla_turn.specs.Held.{OnlyCalls, left_of};
ghost use Rattle.tesla_turn.specs.History.{entries};

use super::further_pass;
use std::alloc::Global;
use std::process::Abort;
use std::sync::Wait;
use std::sync::atomic::AtomicU64;
use std::sync::atomic::Ordering::SeqCst;
use std::test::*;
use std::thread::{Threads, join, yield_now};
use tesla_base::NoMemory;
use tesla_turn::examples::{Add, Append, LimitedSum, Numbers, Sum, add_most};
use tesla_turn::laws::one_history;
use tesla_turn::{Act, Last, NoRoom, Pass, SeatSpent, Turn};

#[test]
fn turn_of_two_passes(rt: HostRuntime) -> Result<(), Fail> {
    let numbers = Numbers::new(rt.alloc(), 10)?;
    let (turn, mut first) = Turn::open(rt.alloc(), numbers, 2, 2)?;
    let mut second = turn.split(&mut first).ok().ok_or("room for a second pass")?;
    assert!(rt; turn.split(&mut first).err() == Some(NoRoom));
    assert!(rt; first.first() && !second.first());
    assert!(rt; first.left() == 2 && second.left() == 2);
    let mut act = Append { number: 7 };
    assert!(rt; turn.perform(&rt, &mut second, &mut act) == Ok(Some(0)));
    assert!(rt; turn.perform(&rt, &mut second, &mut act) == Ok(Some(1)));
    assert!(rt; second.spent() && !first.spent());
    assert!(rt; turn.perform(&rt, &mut second, &mut act) == Err(SeatSpent));
    turn.join(&mut first, second);
    let (numbers, last) = turn.close(&rt, first);
    one_history(&numbers, &last);
    assert!(rt; numbers.items.as_slice() == [7, 7].as_slice());
    Ok(())
}

#[test]
fn a_dropped_pass_takes_nothing_along(rt: HostRuntime) -> Result<(), Fail> {
    let (turn, mut first) = Turn::open(rt.alloc(), Numbers::new(rt.alloc(), 1)?, 2, 2)?;
    let mut second = further_pass(&turn, &mut first)?;
    let mut act = Append { number: 5 };
    assert!(rt; turn.perform(&rt, &mut second, &mut act) == Ok(Some(0)));
    drop(second);
    assert!(rt; first.left() == 2);
    assert!(rt; turn.perform(&rt, &mut first, &mut act) == Ok(None));
    let (numbers, _last) = turn.close(&rt, first);
    assert!(rt; numbers.items.as_slice() == [5].as_slice());
    Ok(())
}

#[test]
fn a_sum_to_which_a_call_adds_the_most(rt: HostRuntime) -> Result<(), Fail> {
    let (turn, mut first) = Turn::open(rt.alloc(), LimitedSum { total: 0, most: 3 }, 1, 2)?;
    add_most(&rt, &turn, &mut first, 3);
    assert!(rt; first.left() == 1);
    let (sum, _last) = turn.close(&rt, first);
    assert_eq!(rt; sum.total, 3);
    Ok(())
}

// Appends `count` numbers, from `first` on.
fn append_all<R: Wait>(
    rt: &R,
    turn: &Turn<Numbers>,
    mut pass: Pass<Numbers>,
    first: u64,
    count: u64,
) -> Pass<Numbers>
    requires own { pass.turn ≡ turn.now }
    requires calls { count ≤ left_of pass }
    requires small { first + count < 2 ^ 64 }
    ensures same { OnlyCalls pass result }
    ensures made { length result.made ≡ length pass.made + count }
{
    for i in 0..count {
        let mut act = Append { number: first + i };
        let _ = turn.take_turn(rt, &mut pass, &mut act);
    }
    pass
}

// Two threads append a hundred numbers each.
fn by_two_threads<R: Threads + Wait + Sync>(
    rt: &R,
    alloc: Global,
) -> Result<(Numbers, Last<Numbers>), NoMemory>
    ensures size { IfOk result (λ r. length r.1.history ≡ 200) }
    ensures legal { IfOk result (λ r. IsLegal 200 (entries r.1.history)) }
{
    let (turn, mut first) = Turn::open(alloc, Numbers::new(alloc, 200)?, 2, 100)?;
    let Ok(second) = turn.split(&mut first) else {
        unreachable!()
    };
    let (mut first, second) = join(
        rt,
        || -> Pass<Numbers>
            requires { (first.turn ≡ turn) × (left_of first ≡ 100) }
            ensures { OnlyCalls first result × (length result.made ≡ length first.made + 100) }
        { append_all(rt, &turn, first, 0, 100) },
        || -> Pass<Numbers>
            requires { (second.turn ≡ turn) × (left_of second ≡ 100) }
            ensures { OnlyCalls second result × (length result.made ≡ length second.made + 100) }
        { append_all(rt, &turn, second, 1000, 100) },
    );
    turn.join(&mut first, second);
    let (numbers, last) = turn.close(rt, first);
    one_history(&numbers, &last);
    Ok((numbers, last))
}

#[test]
fn two_threads_hundred_calls(rt: HostRuntime) -> Result<(), Fail> {
    let (numbers, _last) = by_two_threads(&rt, rt.alloc())?;
    assert!(rt; numbers.items.len() == 200);
    let mut next = [0, 1000];
    for number in &numbers.items {
        let by = if *number < 1000 { 0 } else { 1 };
        assert!(rt; *number == next[by]);
        next[by] = number.saturating_add(1);
    }
    assert!(rt; next == [100, 1100]);
    Ok(())
}

// How often one thread keeps the turn while others want it.
const ROUNDS: u64 = 10;

// What the threads tell one another: the rounds that have begun, and the calls of the others in this round.
#[derive(Drop)]
struct Rounds {
    begun: AtomicU64,
    ended: AtomicU64,
}

// Waits until the count is this number. It gives up after some seconds.
fn comes_to(count: &AtomicU64, number: u64) -> bool {
    for _ in 0..20_000_000 {
        if count.load(SeqCst) == number {
            return true;
        }
        yield_now();
    }
    false
}

// Begins a round, and adds 1 some milliseconds later, when those that want the turn sleep.
#[derive(Drop)]
struct KeepTurn<'a> {
    rounds: &'a Rounds,
}

impl Act<Sum> for KeepTurn<'_> {
    ghost use Rattle.std.specs.Prelude.{};

    type Reply = ();

    ghost entry = { λ _ _. 1 };

    ghost relation = { λ _ _ _. Unit {0} };

    fn run(&mut self, value: &mut Sum) {
        self.rounds.begun.fetch_add(1, SeqCst);
        for _ in 0..10_000 {
            yield_now();
        }
        value.total = value.total.wrapping_add(1);
    }
}

// In each round it keeps the turn, and then sees that each of three others has had its turn.
fn lead<R: Abort + Wait>(
    rt: &R,
    turn: &Turn<Sum>,
    mut pass: Pass<Sum>,
    rounds: &Rounds,
) -> Pass<Sum>
    requires { pass.turn ≡ turn.now }
    ensures { OnlyCalls pass result }
{
    for _ in 0..ROUNDS {
        assert!(rt; turn.perform(rt, &mut pass, &mut KeepTurn { rounds }) == Ok(()));
        assert!(rt; comes_to(&rounds.ended, 3));
        rounds.ended.store(0, SeqCst);
    }
    pass
}

// Adds 1 in each round, while another keeps the turn.
fn follow<R: Abort + Wait>(rt: &R, turn: &Turn<Sum>, mut pass: Pass<Sum>, rounds: &Rounds)
    requires { pass.turn ≡ turn.now }
{
    for round in 0..ROUNDS {
        assert!(rt; comes_to(&rounds.begun, round + 1));
        assert!(rt; turn.perform(rt, &mut pass, &mut Add { number: 1 }) == Ok(()));
        rounds.ended.fetch_add(1, SeqCst);
    }
}

// Were those that sleep not woken one after the other, some would sleep on.
#[test]
fn all_that_park_are_woken(rt: HostRuntime) -> Result<(), Fail> {
    let (turn, mut first) = Turn::open(rt.alloc(), Sum { total: 0 }, 4, ROUNDS)?;
    let second = further_pass(&turn, &mut first)?;
    let third = further_pass(&turn, &mut first)?;
    let fourth = further_pass(&turn, &mut first)?;
    let rounds = Rounds {
        begun: AtomicU64::new(0),
        ended: AtomicU64::new(0),
    };
    let (first, ()) = join(
        &rt,
        || -> Pass<Sum>
            requires { first.turn ≡ turn }
            ensures { OnlyCalls first result }
        { lead(&rt, &turn, first, &rounds) },
        ||
            requires { (second.turn ≡ turn) × (third.turn ≡ turn) × (fourth.turn ≡ turn) }
        {
            let (_, ((), ())) = join(
                &rt,
                ||
                    requires { second.turn ≡ turn }
                { follow(&rt, &turn, second, &rounds) },
                ||
                    requires { (third.turn ≡ turn) × (fourth.turn ≡ turn) }
                {
                    join(
                        &rt,
                        ||
                            requires { third.turn ≡ turn }
                        { follow(&rt, &turn, third, &rounds) },
                        ||
                            requires { fourth.turn ≡ turn }
                        { follow(&rt, &turn, fourth, &rounds) },
                    )
                },
            );
        },
    );
    let (sum, _last) = turn.close(&rt, first);
    assert!(rt; sum.total == 4 * ROUNDS);
    Ok(())
}
