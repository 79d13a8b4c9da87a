// The limits of the worklists: numbers up to 127, 128 numbers at a time, and eight in latest first.
ghost use Rattle.std.specs.Prelude.{◌<◌, ◌≤◌, length};

use crate::checks::{check_idle, check_order, put_each};
use fixpoint::arrival::ArrivalOrder;
use fixpoint::latest::LatestFirst;
use fixpoint::lowest::LowestFirst;
use fixpoint::worklist::Worklist;
use std::process::Abort;
use std::test::Fail;

// 128 is refused, and 127 comes to wait.
fn check_last_number<W: Worklist + Drop>(rt: &impl Abort, mut worklist: W) {
    assert!(rt; !worklist.put(128));
    check_idle(rt, &mut worklist);
    assert!(rt; worklist.put(127));
    assert!(rt; worklist.waits(127));
    check_order(rt, &mut worklist, &[127]);
}

// The number that is put at turn k: over 128 turns each number once, out of order.
fn shuffled(k: usize) -> usize
    requires { k < 128 }
{
    k * 37 % 128
}

// Puts the numbers of the turns from `first` up to `end`, and then all of them again.
fn put_twice<W: Worklist>(rt: &impl Abort, worklist: &mut W, first: usize, end: usize)
    requires { end ≤ 128 }
{
    for _ in 0..2 {
        for k in first..end {
            assert!(rt; worklist.put(shuffled(k)));
        }
    }
}

// Puts all 128 numbers, each twice, and takes them: each comes once. Answers in which order.
fn order_of_all<W: Worklist + Drop>(
    rt: &impl Abort,
    mut worklist: W,
) -> Result<[usize; 128], Fail> {
    put_twice(rt, &mut worklist, 0, 64);
    put_twice(rt, &mut worklist, 64, 128);
    let mut order = [0; 128];
    let mut came = [false; 128];
    for place in order.iter_mut() {
        let i = worklist.take().ok_or("too few numbers came")?;
        assert!(rt; i < 128);
        assert!(rt; !came[i], "{}", i);
        came[i] = true;
        *place = i;
    }
    check_idle(rt, &mut worklist);
    Ok(order)
}

// These are the numbers of these turns, one after the other.
fn check_turns<I: Iterator<Item = usize>>(rt: &impl Abort, order: &[usize], turns: I)
    requires { I.can_next turns }
{
    for (i, k) in order.iter().zip(turns) {
        assert_eq!(rt; *i, shuffled(k % 128));
    }
}

// The last number that may wait is 127, in each kind of worklist: a call for each, since they are types of their own.
#[test]
fn numbers_end_at_127(rt: HostRuntime) {
    check_last_number(&rt, LowestFirst::new());
    check_last_number(&rt, ArrivalOrder::new());
    check_last_number(&rt, LatestFirst::new(LowestFirst::new()));
    check_last_number(&rt, LatestFirst::new(LatestFirst::new(ArrivalOrder::new())));
}

// All 128 numbers come: upward under lowest first, and in order of arrival as they were first put.
#[test]
fn all_numbers_come_in_the_order_of_their_kind(rt: HostRuntime) -> Result<(), Fail> {
    let lowest = order_of_all(&rt, LowestFirst::new())?;
    let arrival = order_of_all(&rt, ArrivalOrder::new())?;
    for (k, i) in lowest.iter().enumerate() {
        assert_eq!(rt; *i, k);
    }
    check_turns(&rt, &arrival, 0..128);
    Ok(())
}

// Of all 128 numbers the newest eight come first, the newest before the others, and then the rest upward.
#[test]
fn latest_first_gives_the_newest_eight_first(rt: HostRuntime) -> Result<(), Fail> {
    let order = order_of_all(&rt, LatestFirst::new(LowestFirst::new()))?;
    check_turns(&rt, &order[..8], (0..128).rev());
    for pair in order[8..].windows(2) {
        assert!(rt; pair[0] < pair[1]);
    }
    Ok(())
}

// Two layers give the newest sixteen first, the newest before the others, and then the rest as they came.
#[test]
fn two_layers_give_the_newest_sixteen_first(rt: HostRuntime) -> Result<(), Fail> {
    let order = order_of_all(&rt, LatestFirst::new(LatestFirst::new(ArrivalOrder::new())))?;
    check_turns(&rt, &order[..16], (0..128).rev());
    check_turns(&rt, &order[16..], 0..112);
    Ok(())
}

// Eight numbers come before the 3 that waits below. A ninth sends the oldest, 50, below, and there 3 is lower.
#[test]
fn the_ninth_number_sends_the_oldest_below(rt: HostRuntime) {
    let mut below = LowestFirst::new();
    assert!(rt; below.put(3));

    let mut eight = LatestFirst::new(below);
    put_each(&rt, &mut eight, &[50, 10, 80, 20, 90, 30, 70, 40]);
    check_order(&rt, &mut eight, &[40, 70, 30, 90, 20, 80, 10, 50, 3]);

    let mut nine = LatestFirst::new(below);
    put_each(&rt, &mut nine, &[50, 10, 80, 20, 90, 30, 70, 40, 60]);
    check_order(&rt, &mut nine, &[60, 40, 70, 30, 90, 20, 80, 10, 3, 50]);
}
