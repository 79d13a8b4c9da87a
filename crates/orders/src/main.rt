// One small system, solved under four orders of work: which rooms of a theatre can be reached from which.
#![tactic(auto)]

mod plan;
mod recorder;
mod report;
mod rooms;
mod theatre;

use crate::report::{print_plan, solve_under};
use crate::theatre::theatre;
use fixpoint::arrival::ArrivalOrder;
use fixpoint::latest::LatestFirst;
use fixpoint::lowest::LowestFirst;
use std::io;

fn main(rt: HostRuntime) -> io::Result<()> {
    let plan = theatre();
    print_plan(&rt, &plan)?;
    solve_under(&rt, &plan, "lowest first", LowestFirst::new())?;
    solve_under(&rt, &plan, "order of arrival", ArrivalOrder::new())?;
    solve_under(
        &rt,
        &plan,
        "latest first over lowest first",
        LatestFirst::new(LowestFirst::new()),
    )?;
    let layers = LatestFirst::new(LatestFirst::new(ArrivalOrder::new()));
    solve_under(
        &rt,
        &plan,
        "latest first over latest first over order of arrival",
        layers,
    )
}
