// The view on an accepted chart file.
use crate::charts::{SMALL, build, open};
use chart::automaton::{Automaton, Owner};
use chart::signal::{Combining, Kind, Name, Signal};
use chart::transition::Transition;
use chart::view::Chart;
use std::process::Abort;
use std::test::Fail;

fn check_signal(rt: &impl Abort, chart: &Chart<'_>, i: usize, kind: Kind, combining: Combining) {
    assert_eq!(rt; chart.signal(i), Some(Signal { kind, combining }));
}

fn check_signals(rt: &impl Abort, chart: &Chart<'_>) {
    assert_eq!(rt; chart.signals(), 4);
    check_signal(rt, chart, 0, Kind::Input, Combining::Plain);
    check_signal(rt, chart, 1, Kind::Output, Combining::Sum);
    check_signal(rt, chart, 2, Kind::Local, Combining::Largest);
    check_signal(rt, chart, 3, Kind::Output, Combining::Plain);
    assert_eq!(rt; chart.signal(4), None);
}

// The name of this signal, and its place in the file.
fn check_name(rt: &impl Abort, chart: &Chart<'_>, i: usize, bytes: &[u8], place: usize) {
    assert_eq!(rt; chart.name(i), Name { bytes, place });
}

fn check_names(rt: &impl Abort, chart: &Chart<'_>) {
    check_name(rt, chart, 0, b"seatnew1", 3);
    check_name(rt, chart, 1, b"a", 13);
    check_name(rt, chart, 2, b"sold", 23);
    check_name(rt, chart, 3, b"seatnew9", 33);
    check_name(rt, chart, 4, b"", 117);
}

fn check_automata(rt: &impl Abort, chart: &Chart<'_>) {
    let top = Automaton {
        owner: None,
        states: 32,
        first: 31,
    };
    let last = Automaton {
        owner: Some(Owner {
            automaton: 1,
            state: 30,
        }),
        states: 1,
        first: 0,
    };
    assert_eq!(rt; chart.automata(), 3);
    assert_eq!(rt; chart.automaton(0), Some(top));
    assert_eq!(rt; chart.automaton(2), Some(last));
    assert_eq!(rt; chart.automaton(3), None);
}

// The transitions by number, and one after the other.
fn check_transitions(rt: &impl Abort, chart: &Chart<'_>) {
    let first = Transition {
        automaton: 0,
        source: 30,
        target: 31,
        needed: 9,
        forbidden: 2,
        emitted: 12,
        amount: 0x0102_0304,
    };
    let last = Transition {
        automaton: 2,
        source: 0,
        target: 0,
        needed: 0,
        forbidden: 0,
        emitted: 0,
        amount: u32::MAX,
    };
    assert_eq!(rt; chart.transitions(), 2);
    assert_eq!(rt; chart.transition(0), Some(first));
    assert_eq!(rt; chart.transition(1), Some(last));
    assert_eq!(rt; chart.transition(2), None);
    let mut all = chart.all_transitions();
    assert_eq!(rt;
        [all.next(), all.next(), all.next()],
        [Some(first), Some(last), None]
    );
}

// The view on the small chart reads back what stands in its bytes.
#[test]
fn the_view_reads_back(rt: HostRuntime) -> Result<(), Fail> {
    let chart = open(SMALL)?;
    check_signals(&rt, &chart);
    check_names(&rt, &chart);
    check_automata(&rt, &chart);
    check_transitions(&rt, &chart);
    Ok(())
}

// A mask of eight bytes that differ is read with its highest byte first.
#[test]
fn the_view_reads_a_mask_of_eight_bytes(rt: HostRuntime) -> Result<(), Fail> {
    let mask = 0x0102_0304_0506_0708;
    let file = build(rt.alloc(), [64, 1, 1], mask)?;
    let chart = open(file.as_slice())?;
    let transition = chart.transition(0).ok_or("no transition 0")?;
    assert_eq!(rt; transition.needed, mask);
    Ok(())
}
