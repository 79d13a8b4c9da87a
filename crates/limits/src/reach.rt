// What charts can reach: an area's places, the largest numbers, and what is possible only by itself or behind what is not.
use crate::charts::{SMALL, build, open};
use crate::checks::{check_idle, check_waiting, put_each};
use analysis::reach::reach;
use analysis::stateset::StateSet;
use chart::view::Chart;
use engine::cases::{HANDOVER, RESOLVED_CYCLE, SELF_DENYING, SELF_SUPPORTING};
use fixpoint::arrival::ArrivalOrder;
use fixpoint::latest::LatestFirst;
use fixpoint::lowest::LowestFirst;
use fixpoint::solver::ShortArea;
use fixpoint::worklist::Worklist;
use std::process::Abort;
use std::test::Fail;

// State 1 is behind a transition that needs what nothing emits, and state 2 and an automaton in state 1 are behind that.
const BEHIND: &[u8; 83] = b"\x01\
    \x02\x00x\0\0\0\0\0\0\0\
    \x02\
    \xff\x00\x03\x00\
    \x00\x01\x01\x00\
    \x02\
    \x00\x00\x01\0\0\0\0\0\0\0\x01\0\0\0\0\0\0\0\x00\0\0\0\0\0\0\0\x00\0\0\0\x00\
    \x00\x01\x02\0\0\0\0\0\0\0\x00\0\0\0\0\0\0\0\x00\0\0\0\0\0\0\0\x01\0\0\0\x00";

// The sets hold these numbers, given as bits, and no other.
fn check_sets(rt: &impl Abort, sets: &[StateSet], expected: &[u32]) {
    for (set, bits) in sets.iter().zip(expected) {
        assert_eq!(rt; set.size(), bits.count_ones());
        for i in 0..32 {
            assert_eq!(rt; set.holds(i), (*bits >> i) % 2 == 1, "{}", i);
        }
        assert!(rt; !set.holds(32));
    }
}

// Solved in an area with just as many places as there are sets.
fn check_solved<W: Worklist + Drop>(
    rt: &impl Abort,
    chart: Chart<'_>,
    mut worklist: W,
    area: &mut [StateSet],
    expected: &[u32],
) {
    assert_eq!(rt; reach(chart, area, &mut worklist), Ok(()));
    check_sets(rt, area, expected);
    check_idle(rt, &mut worklist);
}

// The same under two worklists, first from empty sets and then from those that are there.
fn check_reach(
    rt: &impl Abort,
    file: &[u8],
    area: &mut [StateSet],
    expected: &[u32],
) -> Result<(), Fail> {
    let chart = open(file)?;
    check_solved(rt, chart, ArrivalOrder::new(), area, expected);
    let latest = LatestFirst::new(LowestFirst::new());
    check_solved(rt, chart, latest, area, expected);
    Ok(())
}

// With a place too few a chart is refused with the number needed, and sets and worklist stay as they are.
fn check_refused(
    rt: &impl Abort,
    file: &[u8],
    area: &mut [StateSet],
    needed: usize,
    sets: &[u32],
) -> Result<(), Fail> {
    let mut worklist = LowestFirst::new();
    put_each(rt, &mut worklist, &[3, 127]);
    assert_eq!(rt;
        reach(open(file)?, area, &mut worklist),
        Err(ShortArea { needed })
    );
    check_waiting(rt, &worklist, &[3, 127]);
    check_sets(rt, area, sets);
    Ok(())
}

// Two automata and three signals want five places; of five, a chart that wants two leaves three.
#[test]
fn areas_have_a_place_for_each_automaton_and_signal(rt: HostRuntime) -> Result<(), Fail> {
    let mut area = [StateSet::empty(); 5];
    check_reach(&rt, HANDOVER, &mut area, &[3, 3, 1, 1, 1])?;
    check_reach(&rt, SELF_SUPPORTING, &mut area, &[1, 0, 1, 1, 1])?;
    check_refused(&rt, HANDOVER, &mut area[0..4], 5, &[1, 0, 1, 1])
}

// 32 automata and 64 signals want 96 places.
#[test]
fn the_largest_chart_wants_96_places(rt: HostRuntime) -> Result<(), Fail> {
    let file = build(rt.alloc(), [64, 32, 128], 1 << 63)?;
    let mut area = [StateSet::empty(); 96];
    check_reach(&rt, file.as_slice(), &mut area, &[2; 32])?;
    check_sets(&rt, &area[32..96], &[0; 64]);
    check_refused(&rt, file.as_slice(), &mut area[0..95], 96, &[2; 32])
}

// A cycle of signals that only supports itself is not possible, and what a transition forbids does not matter.
#[test]
fn signals_are_possible_if_something_else_supports_them(rt: HostRuntime) -> Result<(), Fail> {
    check_reach(&rt, SELF_SUPPORTING, &mut [StateSet::empty(); 2], &[1, 0])?;
    check_reach(
        &rt,
        RESOLVED_CYCLE,
        &mut [StateSet::empty(); 5],
        &[1, 1, 1, 0, 0],
    )?;
    check_reach(&rt, SELF_DENYING, &mut [StateSet::empty(); 2], &[1, 1])
}

// A state behind an impossible transition is not reached, nor an automaton in it; state 31 is a state like any other.
#[test]
fn states_are_reached_by_possible_transitions(rt: HostRuntime) -> Result<(), Fail> {
    check_reach(&rt, BEHIND, &mut [StateSet::empty(); 3], &[1, 0, 0])?;
    check_reach(
        &rt,
        SMALL,
        &mut [StateSet::empty(); 7],
        &[1 << 31, 1 << 30, 1, 1, 0, 0, 0],
    )
}
