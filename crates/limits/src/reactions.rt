// Whole instants: values, the configuration after them, and the faults.
use crate::charts::open;
use crate::instants::BOTH;
use chart::fault::ChartFault;
use chart::view::Chart;
use fixpoint::arrival::ArrivalOrder;
use fixpoint::solver::ShortArea;
use reaction::combine::combine;
use reaction::fault::{Fault, InstantFault};
use reaction::kinds::{Largest, Sum};
use reaction::next::start;
use reaction::react::react;
use reaction::value::value;
use status::configuration::Configuration;
use status::status::Status;
use std::process::Abort;
use std::test::Fail;

// An owner with a part, which has a part too, in its state 0, and another part in its state 1.
// On go the owner enters state 0 again; on leave it goes to state 1.
// On in the part goes from 0 to 1, emitting the local out with 7, and its part from 1 to 2, emitting it with 5.
const NESTED: &[u8; 183] = b"\x04\
    \x00\x00go\0\0\0\0\0\0\
    \x00\x00in\0\0\0\0\0\0\
    \x00\x00leave\0\0\0\
    \x02\x01out\0\0\0\0\0\
    \x04\
    \xff\x00\x02\x00\
    \x00\x00\x02\x00\
    \x01\x00\x03\x01\
    \x00\x01\x01\x00\
    \x04\
    \x00\x00\x00\0\0\0\0\0\0\0\x01\0\0\0\0\0\0\0\x00\0\0\0\0\0\0\0\x00\0\0\0\x00\
    \x00\x00\x01\0\0\0\0\0\0\0\x04\0\0\0\0\0\0\0\x00\0\0\0\0\0\0\0\x00\0\0\0\x00\
    \x01\x00\x01\0\0\0\0\0\0\0\x02\0\0\0\0\0\0\0\x00\0\0\0\0\0\0\0\x08\0\0\0\x07\
    \x02\x01\x02\0\0\0\0\0\0\0\x02\0\0\0\0\0\0\0\x00\0\0\0\0\0\0\0\x08\0\0\0\x05";

const GO: u64 = 1;

const IN: u64 = 2;

const LEAVE: u64 = 4;

// The configuration with these states of the four automata.
fn holding(four: [Option<u8>; 4]) -> Configuration {
    let mut states = [None; 32];
    states[..4].copy_from_slice(&four);
    Configuration { states }
}

// One instant: the states after it, and the value of the local.
fn check_step(
    rt: &impl Abort,
    chart: Chart<'_>,
    before: [Option<u8>; 4],
    inputs: u64,
    after: [Option<u8>; 4],
    out: Option<u32>,
) -> Result<(), Fail> {
    let mut area = [BOTH; 4];
    let configuration = holding(before);
    let mut worklist = ArrivalOrder::new();
    let step = react(&chart, &configuration, inputs, &mut worklist, &mut area)
        .ok()
        .ok_or("the instant is refused")?;
    assert_eq!(rt; step.after, holding(after));
    assert_eq!(rt; value(&chart, step.fired, &area, 3), out);
    Ok(())
}

// Where each automaton starts: one whose owner does not start in its owner state holds none.
fn check_start(rt: &impl Abort, chart: Chart<'_>) {
    assert_eq!(rt; start(&chart), holding([Some(0), Some(0), Some(1), None]));
}

// The rules of the next configuration, one after the other.
fn check_steps(rt: &impl Abort, chart: Chart<'_>) -> Result<(), Fail> {
    let first = [Some(0), Some(0), Some(1), None];
    // nothing fires: all stay
    check_step(rt, chart, first, 0, first, None)?;
    // a part moves, and the part that it leaves holds none; both amounts count
    let moved = [Some(0), Some(1), None, None];
    check_step(rt, chart, first, IN, moved, Some(12))?;
    // the owner enters its state again: its parts start, through all levels
    check_step(rt, chart, moved, GO, first, None)?;
    // a part that is started does not move, though its transition fires
    check_step(rt, chart, first, GO | IN, first, Some(12))?;
    // the owner leaves: its parts hold none, the part in the new state starts, and what fired still counts
    check_step(
        rt,
        chart,
        first,
        LEAVE | IN,
        [Some(1), None, None, Some(0)],
        Some(12),
    )
}

#[test]
fn next_configurations(rt: HostRuntime) -> Result<(), Fail> {
    let chart = open(NESTED)?;
    check_start(&rt, chart);
    check_steps(&rt, chart)
}

// A sum stops at the largest number of 32 bits; of no amounts both kinds give 0.
#[test]
fn combined_amounts(rt: HostRuntime) {
    assert_eq!(rt; combine(&Sum, &[45, 30]).value, 75);
    assert_eq!(rt; combine(&Largest, &[45, 30]), 45);
    assert_eq!(rt; combine(&Sum, &[4_294_967_294, 1]).value, 4_294_967_295);
    assert_eq!(rt; combine(&Sum, &[4_294_967_295, 1]).value, 4_294_967_295);
    assert_eq!(rt; combine(&Sum, &[]).value, 0);
    assert_eq!(rt; combine(&Largest, &[]), 0);
}

// One place too few: refused with the number needed, and nothing changes.
fn check_short(rt: &impl Abort, chart: Chart<'_>) -> Result<(), Fail> {
    let mut area = [BOTH; 3];
    let configuration = start(&chart);
    match react(
        &chart,
        &configuration,
        GO,
        &mut ArrivalOrder::new(),
        &mut area,
    ) {
        Ok(_) => return Err(Fail::new("three places are too few")),
        Err(fault) => assert_eq!(rt; (fault.number(), fault.detail()), (9, 4)),
    }
    assert_eq!(rt; area, [BOTH; 3]);
    Ok(())
}

#[test]
fn short_areas(rt: HostRuntime) -> Result<(), Fail> {
    check_short(&rt, open(NESTED)?)
}

// Layer, number and detail of a fault, and what it prints.
fn check_fault(
    rt: &(impl Abort + AllocGlobal),
    fault: Fault,
    layer: &str,
    number: u8,
    detail: u64,
    text: &str,
) -> Result<(), Fail> {
    assert!(rt; fault.layer() == layer);
    assert_eq!(rt; (fault.number(), fault.detail()), (number, detail));
    let printed = fault.to_string(rt.alloc())?;
    assert!(rt; printed.as_str() == text);
    Ok(())
}

#[test]
fn faults(rt: HostRuntime) -> Result<(), Fail> {
    let chart = Fault::Chart(ChartFault::BrokenAutomaton(42));
    check_fault(&rt, chart, "chart", 4, 42, "4 42")?;
    let inputs = Fault::Instant(InstantFault::NotInputs(u64::MAX));
    check_fault(
        &rt,
        inputs,
        "instant",
        7,
        u64::MAX,
        "7 18446744073709551615",
    )?;
    let count = Fault::Instant(InstantFault::CountReached);
    check_fault(&rt, count, "instant", 8, 1_000_000, "8 1000000")?;
    let solver = Fault::Solver(ShortArea { needed: 64 });
    check_fault(&rt, solver, "solver", 9, 64, "9 64")?;
    let unresolved = Fault::Instant(InstantFault::Unresolved(5));
    check_fault(&rt, unresolved, "instant", 10, 5, "10 5")?;
    let line = Fault::Instant(InstantFault::LongLine(1_358));
    check_fault(&rt, line, "instant", 11, 1_358, "11 1358")
}
