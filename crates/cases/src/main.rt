// cases: performs the first worked cases, and prints the line or the fault of each.
#![tactic(auto)]

use analysis::reach::reach_system;
use analysis::stateset::StateSet;
use chart::view::Chart;
use engine::cases::{Case, worked_cases};
use engine::publish::{NextCall, publish};
use engine::runner::Runner;
use fixpoint::lowest::LowestFirst;
use fixpoint::worklist::Worklist;
use status::status::Status;
use std::io;

// The instant of a case, with as many places and bytes as it says: its line as it stands in the buffer, or its fault.
fn perform(rt: &HostRuntime, chart: Chart, runner: &mut Runner, case: &Case) -> io::Result<()> {
    let mut cells = [StateSet::empty(); 96];
    let mut sets = [StateSet::empty(); 96];
    let mut area = [Status::default(); 64];
    let mut buffer = [0; 64];
    let line = &mut buffer[..case.room.min(64)];
    let published = publish(
        &reach_system(chart),
        &mut cells,
        &mut sets,
        runner,
        NextCall::Instant(case.mask),
        &mut LowestFirst::new(),
        &mut area[..case.places.min(64)],
        line,
    );
    match published.answer {
        Some(Ok(length)) => rt.write_all(&line[..length]),
        Some(Err(fault)) => println!(rt; "{fault}"),
        None => Ok(()),
    }
}

// A runner on the chart of a case, and the instant of the case.
fn run(rt: &HostRuntime, chart: Chart, case: &Case) -> io::Result<()> {
    let mut runner = Runner::start(chart);
    let printed = perform(rt, chart, &mut runner, case);
    runner.close();
    printed
}

fn main(rt: HostRuntime) -> io::Result<()> {
    let cases = worked_cases();
    for case in cases.iter().take(7) {
        match Chart::open(case.file) {
            Ok(chart) => run(&rt, chart, case)?,
            Err(fault) => println!(&rt; "{fault}")?,
        }
    }
    Ok(())
}
