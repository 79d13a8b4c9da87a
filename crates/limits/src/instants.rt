// The statuses of single instants: what decides, and what does not.
// The charts are those of the worked cases.
use crate::charts::open;
use chart::view::Chart;
use engine::cases::{EITHER_WAY, HANDOVER, RESOLVED_CYCLE, SELF_DENYING, SELF_SUPPORTING};
use fixpoint::latest::LatestFirst;
use fixpoint::lowest::LowestFirst;
use fixpoint::worklist::Worklist;
use status::configuration::Configuration;
use status::equations::status_system;
use status::solved::resolve;
use status::status::Status;
use std::process::Abort;
use std::test::Fail;

// What an instant should come to: the unresolved signals, the first three statuses, and the transitions that fire.
#[derive(Clone, Copy)]
struct Outcome {
    unresolved: u64,
    statuses: [Status; 3],
    fired: [bool; 2],
}

// The outcome where every automaton holds state 0.
fn check_outcome<W: Worklist + Drop>(
    rt: &impl Abort,
    chart: Chart<'_>,
    inputs: u64,
    mut worklist: W,
    outcome: Outcome,
) -> Result<(), Fail> {
    let configuration = Configuration {
        states: [Some(0); 32],
    };
    let mut area = [BOTH; 3];
    let system = status_system(chart, &configuration, inputs);
    assert_eq!(rt;
        resolve(&system, &mut worklist, &mut area),
        Ok(outcome.unresolved)
    );
    assert_eq!(rt; area, outcome.statuses);
    let set = system.fired(&area).ok().ok_or("three places are enough")?;
    assert_eq!(rt;
        [set.has(0), set.has(1), set.has(127)],
        [outcome.fired[0], outcome.fired[1], false]
    );
    Ok(())
}

// The same under two worklists. A place beyond the signals keeps both marks.
fn check_instant(rt: &impl Abort, file: &[u8], inputs: u64, outcome: Outcome) -> Result<(), Fail> {
    let chart = open(file)?;
    check_outcome(rt, chart, inputs, LowestFirst::new(), outcome)?;
    let latest = LatestFirst::new(LowestFirst::new());
    check_outcome(rt, chart, inputs, latest, outcome)
}

pub const PRESENT: Status = Status {
    present: true,
    absent: false,
};

pub const ABSENT: Status = Status {
    present: false,
    absent: true,
};

const UNKNOWN: Status = Status {
    present: false,
    absent: false,
};

pub const BOTH: Status = Status {
    present: true,
    absent: true,
};

// All signals are decided.
fn decided(statuses: [Status; 3], fired: [bool; 2]) -> Outcome {
    Outcome {
        unresolved: 0,
        statuses,
        fired,
    }
}

// The one signal stays unknown, and nothing fires.
const UNDECIDED: Outcome = Outcome {
    unresolved: 1,
    statuses: [UNKNOWN, BOTH, BOTH],
    fired: [false, false],
};

// What is shown present or absent step by step is decided, a cycle that the inputs break too.
#[test]
fn instants_that_decide(rt: HostRuntime) -> Result<(), Fail> {
    check_instant(
        &rt,
        HANDOVER,
        1,
        decided([PRESENT, PRESENT, PRESENT], [true, true]),
    )?;
    check_instant(
        &rt,
        HANDOVER,
        0,
        decided([ABSENT, ABSENT, ABSENT], [false, false]),
    )?;
    check_instant(
        &rt,
        RESOLVED_CYCLE,
        1,
        decided([PRESENT, ABSENT, ABSENT], [false, false]),
    )
}

// What only supports or denies itself stays unknown, also where one solution would decide it.
#[test]
fn instants_that_do_not(rt: HostRuntime) -> Result<(), Fail> {
    check_instant(&rt, SELF_SUPPORTING, 0, UNDECIDED)?;
    check_instant(&rt, SELF_DENYING, 0, UNDECIDED)?;
    check_instant(&rt, EITHER_WAY, 0, UNDECIDED)
}
