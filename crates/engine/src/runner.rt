// A runner: a chart, how many instants it has accepted since its last start or reset, and the configuration.
ghost use Rattle.std.specs.Prelude.{List};
ghost use Rattle.engine.specs.Story.{Behind, Told};

use chart::view::Chart;
use status::configuration::Configuration;

// Every runner has a story behind it.
pub struct Runner<'a> {
    pub(crate) chart: Chart<'a>,
    pub(crate) count: u32,
    pub(crate) configuration: Configuration,
    ghost past: { ∥ ((story : List Told) × Behind chart.bytes.now story (record { count = count; states = configuration.states })) ∥₁ },
}
