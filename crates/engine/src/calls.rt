// The calls on a runner: the checks of an instant in their order, the reaction, the line.
ghost use Rattle.std.specs.Prelude.{◌≡◌, ℕ, ◌+◌, length, Ok, Err, MatchResult};
ghost use Rattle.bits.specs.Bits.{bit};
ghost use Rattle.chart.specs.Decoded.{input};
ghost use Rattle.chart.specs.Views.{decoded};
ghost use Rattle.engine.specs.Answer.{at_start, not_inputs, outcome_of};
ghost use Rattle.engine.specs.Runner.{Adds, SameFile, Takes, held, holding, rules};
ghost use Rattle.engine.specs.Story.{answered, was_reset};

use crate::runner::Runner;
use bits::with_bit;
use chart::view::Chart;
use fixpoint::worklist::Worklist;
use reaction::fault::{Fault, InstantFault};
use reaction::next::start;
use reaction::react::react;
use status::configuration::Configuration;
use status::status::Status;
use trace::line::Line;

// The inputs of a chart, as a mask. A chain of its own: one function over any test would have to require that it can be called.
fn inputs(chart: &Chart) -> u64
    ensures { (s : ℕ) → bit result s ≡ input (decoded chart.now) s }
{
    (0..chart.signals())
        .filter(|s| chart.is_input(*s))
        .fold(0, with_bit)
}

// The bits of a mask that are not inputs.
fn other_bits(chart: &Chart, mask: u64) -> u64
    ensures { result ≡ not_inputs (decoded chart.now) mask }
{
    mask & !inputs(chart)
}

// An accepted instant: the length of its line, and the configuration after it.
#[derive(Clone, Copy)]
struct Accepted {
    length: usize,
    after: Configuration,
}

// What a runner leaves when it is closed.
#[derive(Clone, Copy)]
pub struct Record {
    pub count: u32,
    pub configuration: Configuration,
}

impl<'a> Runner<'a> {
    // A runner on a chart.
    pub fn start(chart: Chart<'a>) -> Runner<'a>
        ensures { (result.chart.bytes.now ≡ chart.entry.bytes.now) × (holding result ≡ at_start (decoded chart.entry)) }
    {
        let configuration = start(&chart);
        Runner {
            chart,
            count: 0,
            configuration,
        }
    }

    // Back to the start.
    pub fn reset(&mut self)
        ensures same { SameFile self.old self.new }
        ensures holds { holding self.new ≡ at_start (rules self.old) }
        ensures stories { Adds self.old was_reset self.new }
    {
        self.configuration = start(&self.chart);
        self.count = 0;
    }

    // An instant that changes nothing that is held: refused, or accepted. Its parameters are those of `instant`.
    fn take<W: Worklist>(
        &self,
        mask: u64,
        worklist: &mut W,
        area: &mut [Status],
        line: &mut [u8],
    ) -> Result<Accepted, Fault>
        ensures { let takes = Takes (rules self.now) (holding self.now) mask area.old area.new (W.waiting worklist.new) (worklist.new ≡ worklist.old) line.old line.new in MatchResult result (λ a. takes (Ok a.length) (held (self.now.count + 1) a.after.states)) (λ f. takes (Err f) (holding self.now)) }
    {
        let others = other_bits(&self.chart, mask);
        if others != 0 {
            return Err(Fault::Instant(InstantFault::NotInputs(others)));
        }
        if self.count == 1_000_000 {
            return Err(Fault::Instant(InstantFault::CountReached));
        }
        let step = react(&self.chart, &self.configuration, mask, worklist, area)?;
        let told = Line {
            chart: self.chart,
            count: self.count + 1,
            statuses: area,
            fired: step.fired,
            after: &step.after,
        };
        let length = told.write(line)?;
        Ok(Accepted {
            length,
            after: step.after,
        })
    }

    // One instant, with any worklist and area; answers the length of its line.
    // The mask, the worklist, the area and the buffer are parameters of their own: a rule of the project.
    pub fn instant<W: Worklist>(
        &mut self,
        mask: u64,
        worklist: &mut W,
        area: &mut [Status],
        line: &mut [u8],
    ) -> Result<usize, Fault>
        ensures same { SameFile self.old self.new }
        ensures takes { Takes (rules self.old) (holding self.old) mask area.old area.new (W.waiting worklist.new) (worklist.new ≡ worklist.old) line.old line.new result (holding self.new) }
        ensures stories { Adds self.old (answered mask (length area.old) (length line.old) (outcome_of (rules self.old) (holding self.old) mask (length area.old) (length line.old)).reply) self.new }
    {
        let accepted = self.take(mask, worklist, area, line)?;
        self.count += 1;
        self.configuration = accepted.after;
        Ok(accepted.length)
    }

    // How many instants were accepted since the last start or reset.
    pub fn count(&self) -> u32
        ensures { result ≡ self.now.count }
    {
        self.count
    }

    // The configuration.
    pub fn configuration(&self) -> Configuration
        ensures { result ≡ self.now.configuration }
    {
        self.configuration
    }

    // Uses the runner up; what it held is left.
    pub fn close(self) -> Record
        ensures { (result.count ≡ self.entry.count) × (result.configuration ≡ self.entry.configuration) }
    {
        let Runner {
            chart: _,
            count,
            configuration,
        } = self;
        Record {
            count,
            configuration,
        }
    }
}
