// The status system of one instant.
ghost use Rattle.std.specs.Prelude.{◌≡◌, ℕ, ◌<◌, ◌≤◌, ◌&&◌, ◌||◌, [], length, take, MatchResult, ◌==◌, slice_index_or};
ghost use Rattle.bits.specs.Bits.{bit};
ghost use Rattle.status.specs.Equations.{bears, emits, firing, guard, hears, live, mentions, status_equations, status_of};
ghost use Rattle.fixpoint.specs.Marks.{marked};
ghost use Rattle.status.specs.Fired.{FiredUnder, has_fired};
ghost use Rattle.status.specs.Status.{unknown};
ghost use Rattle.status.specs.StatusLaws.{few_signals, status_laws};
ghost use Rattle.status.specs.StatusSystem.{chart_of, states_of};
ghost use Rattle.status.specs.Words.{told};

use crate::configuration::Configuration;
use crate::fired::Fired;
use crate::status::Status;
use bits::{has_bit, with_bit};
use chart::transition::Transition;
use chart::view::Chart;
use fixpoint::marks::Marks;
use fixpoint::solver::ShortArea;
use fixpoint::system::System;

// A chart, the configuration before the instant, and the mask of its inputs.
#[derive(Clone, Copy)]
pub struct StatusSystem<'a, 'b> {
    chart: Chart<'a>,
    configuration: &'b Configuration,
    mask: u64,
}

// The status system of an instant.
pub fn status_system<'a, 'b>(
    chart: Chart<'a>,
    configuration: &'b Configuration,
    inputs: u64,
) -> StatusSystem<'a, 'b>
    ensures { (result.chart.bytes.now ≡ chart.entry.bytes.now) × (result.configuration.now ≡ configuration.now) × (result.mask ≡ inputs) }
{
    StatusSystem {
        chart,
        configuration,
        mask: inputs,
    }
}

// The statuses of up to 64 signals in two words, so that a guard is a few operations on masks.
#[derive(Clone, Copy, Default)]
struct Words {
    present: u64,
    absent: u64,
}

// A word with bit i set too where a test says so. The sets of bits that are made by a test stay loops of their own:
// one function over any test would have to require that it can be called, and public calls require nothing.
pub(crate) fn marked(word: u64, i: usize, on: bool) -> u64
    requires { i < 64 }
    ensures { (j : ℕ) → bit result j ≡ (bit word j || (on && j == i)) }
{
    if on {
        return with_bit(word, i);
    }
    word
}

impl Words {
    // The statuses in an area.
    fn gather(area: &[Status]) -> Words
        requires { length area.now ≤ 64 }
        ensures { (s : ℕ) → told result s ≡ slice_index_or area.now s unknown }
    {
        let mut words = Words::default();
        for (s, status) in area.iter().enumerate() {
            words.present = marked(words.present, s, status.present);
            words.absent = marked(words.absent, s, status.absent);
        }
        words
    }

    // The guard of a transition.
    fn guard(self, t: &Transition) -> Status
        ensures { result ≡ guard (told self) t.now }
    {
        Status {
            present: (t.needed & !self.present == 0) & (t.forbidden & !self.absent == 0),
            absent: (t.needed & self.absent != 0) | (t.forbidden & self.present != 0),
        }
    }
}

// Whether the guard of a transition mentions signal j.
fn mentions(t: &Transition, j: usize) -> bool
    ensures { result ≡ mentions j t.now }
{
    has_bit(t.needed, j) | has_bit(t.forbidden, j)
}

impl<'a, 'b> StatusSystem<'a, 'b> {
    // Whether a transition is live.
    fn live(&self, t: &Transition) -> bool
        ensures { result ≡ live (states_of self.now) t.now }
    {
        self.configuration.holds(usize::from(t.automaton), t.source)
    }

    // Whether a transition is live and of the automaton of another.
    fn rival(&self, e: &Transition, t: &Transition) -> bool
        ensures { result ≡ (live (states_of self.now) e.now && e.now.automaton == t.now.automaton) }
    {
        self.live(e) & (e.automaton == t.automaton)
    }

    // The firing of transition k, which is t.
    fn firing(&self, words: Words, k: usize, t: &Transition) -> Status
        ensures { result ≡ firing (states_of self.now) (told words) (take k (chart_of self.now).transitions) t.now }
    {
        self.chart
            .all_transitions()
            .take(k)
            .filter(|e| self.rival(e, t))
            .fold(words.guard(t), |fires, e| fires & !words.guard(&e))
    }

    // Whether a transition is live and emits signal s.
    fn emits(&self, t: &Transition, s: usize) -> bool
        ensures { result ≡ emits (states_of self.now) s t.now }
    {
        self.live(t) & has_bit(t.emitted, s)
    }

    // The equation of signal s.
    fn status_of(&self, words: Words, s: usize) -> Status
        ensures { result ≡ status_of (chart_of self.now) (states_of self.now) self.now.mask (told words) s }
    {
        if self.chart.is_input(s) {
            return Status::from(has_bit(self.mask, s));
        }
        self.chart
            .all_transitions()
            .enumerate()
            .filter(|(_, t)| self.emits(t, s))
            .fold(Status::from(false), |emitted, (k, t)| {
                emitted | self.firing(words, k, &t)
            })
    }

    // The transitions that fired under the first statuses of an area.
    fn fired_set(&self, area: &[Status]) -> Marks
        requires { length (chart_of self.now).signals ≤ length area.now }
        ensures { (k : ℕ) → marked result k ≡ has_fired (chart_of self.now) (states_of self.now) area.now k }
    {
        let words = Words::gather(&area[..self.chart.signals()]);
        let mut set = Marks::new();
        for (k, t) in self.chart.all_transitions().enumerate() {
            if self.live(&t) & self.firing(words, k, &t).present {
                set = set.with(k);
            }
        }
        set
    }

    // The transitions that fired under the statuses of an area.
    pub fn fired(&self, area: &[Status]) -> Result<Fired, ShortArea>
        ensures { MatchResult result (λ f. FiredUnder (chart_of self.now) (states_of self.now) area.now (marked f.set)) (λ e. (e.needed ≡ length (chart_of self.now).signals) × (length area.now < e.needed)) }
    {
        let n = self.chart.signals();
        if area.len() < n {
            return Err(ShortArea { needed: n });
        }
        Ok(Fired {
            set: self.fired_set(area),
        })
    }

    // Whether the firing of transition k, which is t, depends on signal j.
    fn bears(&self, j: usize, k: usize, t: &Transition) -> bool
        ensures { result ≡ bears (states_of self.now) j (take k (chart_of self.now).transitions) t.now }
    {
        mentions(t, j)
            || self
                .chart
                .all_transitions()
                .take(k)
                .any(|e| self.rival(&e, t) && mentions(&e, j))
    }

    // Whether a firing that makes up signal s depends on signal j.
    fn hears(&self, s: usize, j: usize) -> bool
        ensures { result ≡ hears (states_of self.now) s j [] (chart_of self.now).transitions }
    {
        self.chart
            .all_transitions()
            .enumerate()
            .any(|(k, t)| self.emits(&t, s) && self.bears(j, k, &t))
    }
}

impl<'a, 'b> System for StatusSystem<'a, 'b> {
    type Element = Status;

    ghost equations = { λ s. status_equations (chart_of s) (states_of s) s.mask };

    ghost laws = { λ s. status_laws (chart_of s) (states_of s) s.mask (few_signals s.chart.bytes.now s.chart.layout) };

    fn count(&self) -> usize {
        self.chart.signals()
    }

    fn bottom(&self) -> Status {
        Status::default()
    }

    // The marks of both, which is neither their And nor their Or.
    fn join(&self, a: Status, b: Status) -> Status {
        Status {
            present: a.present | b.present,
            absent: a.absent | b.absent,
        }
    }

    fn evaluate(&self, i: usize, area: &[Status]) -> Status {
        let n = self.chart.signals();
        if i >= n || area.len() < n {
            return self.bottom();
        }
        self.status_of(Words::gather(&area[..n]), i)
    }

    fn same(&self, a: Status, b: Status) -> bool {
        a == b
    }

    fn reads(&self, i: usize, j: usize) -> bool {
        let n = self.chart.signals();
        i < n && j < n && !self.chart.is_input(i) && self.hears(i, j)
    }
}
