// The states and signals that a chart can reach.
ghost use Rattle.std.specs.Prelude.{◌≡◌, ◌<◌, ◌≤◌, length, Ok, Err};
ghost use Rattle.fixpoint.specs.Solver.{Solved};
ghost use Rattle.chart.specs.Views.{decoded};
ghost use Rattle.analysis.specs.Reach.{adds, bears, hears, owned_by, reach_equations, unknowns};
ghost use Rattle.analysis.specs.ReachLaws.{chart_laws};

use crate::reached::{Reached, gather};
use crate::stateset::StateSet;
use bits::has_bit;
use chart::automaton::Automaton;
use chart::transition::Transition;
use chart::view::Chart;
use fixpoint::solver::{ShortArea, solve};
use fixpoint::system::System;
use fixpoint::worklist::Worklist;

// The reach system of a chart: a set for each automaton, then one for each signal.
#[derive(Clone, Copy)]
pub struct ReachSystem<'a> {
    chart: Chart<'a>,
}

// The reach system of a chart.
pub fn reach_system<'a>(chart: Chart<'a>) -> ReachSystem<'a>
    ensures { result.chart.bytes.now ≡ chart.entry.bytes.now }
{
    ReachSystem { chart }
}

// Whether automaton j is the owner of an automaton.
fn owned_by(j: usize, automaton: Option<Automaton>) -> bool
    ensures { result ≡ owned_by j automaton }
{
    automaton
        .and_then(|a| a.owner)
        .is_some_and(|o| usize::from(o.automaton) == j)
}

impl<'a> ReachSystem<'a> {
    // Whether a transition adds to unknown i.
    fn adds(&self, i: usize, t: Transition) -> bool
        ensures { result ≡ adds (decoded self.now.chart) i t }
    {
        let first = self.chart.automata();
        if i < first {
            return usize::from(t.automaton) == i;
        }
        has_bit(t.emitted, i - first)
    }

    // Whether unknown j bears on a transition.
    fn bears(&self, j: usize, t: Transition) -> bool
        ensures { result ≡ bears (decoded self.now.chart) j t }
    {
        let own = usize::from(t.automaton) == j;
        let first = self.chart.automata();
        if j < first {
            return own;
        }
        own || has_bit(t.needed, j - first)
    }

    // Whether the equation of unknown i depends on unknown j.
    fn hears(&self, i: usize, j: usize) -> bool
        ensures { result ≡ hears (decoded self.now.chart) i j }
    {
        owned_by(j, self.chart.automaton(i))
            || self
                .chart
                .all_transitions()
                .any(|t| self.adds(i, t) && self.bears(j, t))
    }
}

impl<'a> System for ReachSystem<'a> {
    type Element = StateSet;

    ghost equations = { λ s. reach_equations (decoded s.chart) };

    ghost laws = { λ s. chart_laws s.chart.bytes.now s.chart.layout };

    fn count(&self) -> usize {
        self.chart.automata() + self.chart.signals()
    }

    fn bottom(&self) -> StateSet {
        StateSet::empty()
    }

    fn join(&self, a: StateSet, b: StateSet) -> StateSet {
        a | b
    }

    fn evaluate(&self, i: usize, area: &[StateSet]) -> StateSet {
        let n = self.count();
        if i >= n || area.len() < n {
            return self.bottom();
        }
        let first = self.chart.automata();
        let reached = Reached {
            chart: self.chart,
            sets: &area[..first],
            signals: gather(&area[first..n]),
        };
        reached.equation(i)
    }

    fn same(&self, a: StateSet, b: StateSet) -> bool {
        a == b
    }

    fn reads(&self, i: usize, j: usize) -> bool {
        let n = self.count();
        i < n && j < n && self.hears(i, j)
    }
}

// Solves the reach system of a chart in an area, with any worklist.
pub fn reach<W: Worklist>(
    chart: Chart,
    area: &mut [StateSet],
    worklist: &mut W,
) -> Result<(), ShortArea>
    ensures refused { length area.old < unknowns (decoded chart.entry) → (result ≡ Err (record { needed = unknowns (decoded chart.entry) })) × (area.new ≡ area.old) × (worklist.new ≡ worklist.old) }
    ensures solved { unknowns (decoded chart.entry) ≤ length area.old → (result ≡ Ok tt) × Solved (reach_equations (decoded chart.entry)) area.old area.new (W.waiting worklist.new) }
{
    solve(&reach_system(chart), worklist, area)
}
