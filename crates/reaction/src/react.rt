// One instant: its statuses, what fired, and the configuration after it.
ghost use Rattle.std.specs.Prelude.{◌≡◌, ◌<◌, ◌≤◌, length, Err};
ghost use Rattle.chart.specs.Views.{decoded};
ghost use Rattle.reaction.specs.React.{Reacts};
ghost use Rattle.reaction.specs.declared.fault.Fault.TheVariants.{Solver};

use crate::fault::{Fault, InstantFault};
use crate::next::next;
use chart::view::Chart;
use fixpoint::worklist::Worklist;
use status::configuration::Configuration;
use status::equations::status_system;
use status::fired::Fired;
use status::solved::resolve;
use status::status::Status;

// What a decided instant does: the transitions that fired, and the configuration after it.
#[derive(Clone, Copy)]
pub struct Step {
    pub fired: Fired,
    pub after: Configuration,
}

// Takes one instant in an area, with any worklist; the statuses of the signals are then in the area.
// Five parameters, since callers have them apart: the first three become the status system, the others are those of `resolve`.
pub fn react<W: Worklist>(
    chart: &Chart,
    configuration: &Configuration,
    inputs: u64,
    worklist: &mut W,
    area: &mut [Status],
) -> Result<Step, Fault>
    ensures refused { length area.old < length (decoded chart.now).signals → (result ≡ Err (Solver (record { needed = length (decoded chart.now).signals }))) × (area.new ≡ area.old) × (worklist.new ≡ worklist.old) }
    ensures reacts { length (decoded chart.now).signals ≤ length area.old → Reacts (decoded chart.now) configuration.now.states inputs area.old area.new (W.waiting worklist.new) result }
{
    let system = status_system(*chart, configuration, inputs);
    let unresolved = resolve(&system, worklist, area)?;
    if unresolved != 0 {
        return Err(InstantFault::Unresolved(unresolved).into());
    }
    let fired = system.fired(area)?;
    Ok(Step {
        fired,
        after: next(chart, fired, configuration),
    })
}
