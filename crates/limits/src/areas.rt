// The limits of systems and areas: from none to 128 equations, and an area with a place for each.
use crate::chain::Chain;
use crate::checks::{check_idle, check_waiting, put_each};
use fixpoint::arrival::ArrivalOrder;
use fixpoint::latest::LatestFirst;
use fixpoint::lowest::LowestFirst;
use fixpoint::solver::{ShortArea, solve};
use fixpoint::worklist::Worklist;
use std::process::Abort;

// Four places for five equations: the answer is five, and area and worklist stay as they are.
fn check_refused<W: Worklist + Drop>(rt: &impl Abort, mut worklist: W) {
    put_each(rt, &mut worklist, &[3, 127]);
    let mut area = [true, false, false, true];
    let answer = solve(&Chain::new(5), &mut worklist, &mut area);
    assert_eq!(rt; answer, Err(ShortArea { needed: 5 }));
    assert_eq!(rt; area, [true, false, false, true]);
    check_waiting(rt, &worklist, &[3, 127]);
}

// 128 equations in 128 places: all come true, and nothing waits.
fn check_longest<W: Worklist + Drop>(rt: &impl Abort, mut worklist: W) {
    let mut area = [false; 128];
    assert_eq!(rt; solve(&Chain::new(128), &mut worklist, &mut area), Ok(()));
    assert_eq!(rt; area, [true; 128]);
    check_idle(rt, &mut worklist);
}

// No equation and no place: what waited is dropped. One equation in one place: it comes true.
fn check_smallest<W: Worklist + Drop>(rt: &impl Abort, mut worklist: W) {
    put_each(rt, &mut worklist, &[0, 127]);
    assert_eq!(rt; solve(&Chain::new(0), &mut worklist, &mut []), Ok(()));
    check_idle(rt, &mut worklist);

    let mut area = [false];
    assert_eq!(rt; solve(&Chain::new(1), &mut worklist, &mut area), Ok(()));
    assert_eq!(rt; area, [true]);
}

// An area with one place too few is refused, under each kind of worklist.
// Here and below a call for each kind: they are types of their own, and no closure takes several.
#[test]
fn one_place_too_few_is_refused(rt: HostRuntime) {
    check_refused(&rt, LowestFirst::new());
    check_refused(&rt, ArrivalOrder::new());
    check_refused(&rt, LatestFirst::new(LowestFirst::new()));
    check_refused(&rt, LatestFirst::new(LatestFirst::new(ArrivalOrder::new())));
}

// Five places are enough for five equations, and of seven the last two stay as they are.
#[test]
fn a_place_for_each_equation_is_enough(rt: HostRuntime) {
    let mut worklist = ArrivalOrder::new();

    let mut exact = [false; 5];
    assert_eq!(rt; solve(&Chain::new(5), &mut worklist, &mut exact), Ok(()));
    assert_eq!(rt; exact, [true; 5]);

    let mut roomy = [false, false, false, false, false, false, true];
    assert_eq!(rt; solve(&Chain::new(5), &mut worklist, &mut roomy), Ok(()));
    assert_eq!(rt; roomy, [true, true, true, true, true, false, true]);
}

// The largest system is solved under each kind of worklist.
#[test]
fn a_system_of_128_equations_is_solved(rt: HostRuntime) {
    check_longest(&rt, LowestFirst::new());
    check_longest(&rt, ArrivalOrder::new());
    check_longest(&rt, LatestFirst::new(LowestFirst::new()));
    check_longest(&rt, LatestFirst::new(LatestFirst::new(ArrivalOrder::new())));
}

// Systems of no equation and of one are solved under each kind of worklist.
#[test]
fn systems_of_no_equation_and_of_one_are_solved(rt: HostRuntime) {
    check_smallest(&rt, LowestFirst::new());
    check_smallest(&rt, ArrivalOrder::new());
    check_smallest(&rt, LatestFirst::new(LowestFirst::new()));
    check_smallest(&rt, LatestFirst::new(LatestFirst::new(ArrivalOrder::new())));
}
