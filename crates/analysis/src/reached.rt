// What is reached in an assignment, and the equations of a chart's automata and signals there.
ghost use Rattle.std.specs.Prelude.{◌≡◌, ℕ, ◌≤◌, length, slice_index_or};
ghost use Rattle.bits.specs.Bits.{bit};
ghost use Rattle.bits.specs.Members.{some};
ghost use Rattle.bits.specs.Set.{has, none, only_if};
ghost use Rattle.analysis.specs.Reach.{emits, entered, moves, possible, reach_of, signal_of, started, states_of};
ghost use Rattle.analysis.specs.Reached.{chart_of, signal_in, state_in};

use crate::stateset::StateSet;
use bits::{has_bit, with_bit};
use chart::automaton::{Automaton, Owner};
use chart::transition::Transition;
use chart::view::Chart;

// The sets of a chart's automata, and the signals that are possible as the bits of a word.
#[derive(Clone, Copy)]
pub struct Reached<'a, 's> {
    pub chart: Chart<'a>,
    pub sets: &'s [StateSet],
    pub signals: u64,
}

// The possible signals among the sets of all signals: those in whose set 0 is.
// A loop of its own: one function over any test would have to require that it can be called, and public calls require nothing.
pub fn gather(sets: &[StateSet]) -> u64
    requires { length sets.now ≤ 64 }
    ensures { (s : ℕ) → bit result s ≡ has (slice_index_or sets.now s none) 0 }
{
    let mut signals = 0;
    for (s, set) in sets.iter().enumerate() {
        if set.holds(0) {
            signals = with_bit(signals, s);
        }
    }
    signals
}

// Number i alone where a test holds, and otherwise nothing.
fn only_if(test: bool, i: u8) -> StateSet
    ensures { result ≡ only_if test i }
{
    if test {
        StateSet::only(usize::from(i))
    } else {
        StateSet::empty()
    }
}

impl<'a, 's> Reached<'a, 's> {
    // Whether an automaton's set has a state.
    fn reached(&self, automaton: u8, state: u8) -> bool
        ensures { result ≡ state_in self.now automaton state }
    {
        self.sets
            .get(usize::from(automaton))
            .is_some_and(|set| set.holds(usize::from(state)))
    }

    // Whether a transition is possible.
    fn possible(&self, t: Transition) -> bool
        ensures { result ≡ possible (state_in self.now) (signal_in self.now) t }
    {
        self.reached(t.automaton, t.source) && (t.needed & !self.signals == 0)
    }

    // Whether an automaton with this owner is entered.
    fn entered(&self, owner: Option<Owner>) -> bool
        ensures { result ≡ entered (state_in self.now) owner }
    {
        match owner {
            None => true,
            Some(o) => self.reached(o.automaton, o.state),
        }
    }

    // The first state of an automaton, if there is one and it is entered.
    fn started(&self, automaton: Option<Automaton>) -> StateSet
        ensures { result ≡ started (state_in self.now) automaton }
    {
        match automaton {
            Some(a) => only_if(self.entered(a.owner), a.first),
            None => StateSet::empty(),
        }
    }

    // Whether a transition is possible and of automaton k.
    fn moves(&self, k: usize, t: Transition) -> bool
        ensures { result ≡ moves (state_in self.now) (signal_in self.now) k t }
    {
        usize::from(t.automaton) == k && self.possible(t)
    }

    // Whether a transition is possible and emits signal s.
    fn emits(&self, s: usize, t: Transition) -> bool
        ensures { result ≡ emits (state_in self.now) (signal_in self.now) s t }
    {
        has_bit(t.emitted, s) && self.possible(t)
    }

    // The equation of automaton k.
    fn states_of(&self, k: usize) -> StateSet
        ensures { result ≡ states_of (chart_of self.now) (state_in self.now) (signal_in self.now) k }
    {
        self.chart
            .all_transitions()
            .fold(self.started(self.chart.automaton(k)), |set, t| {
                set | only_if(self.moves(k, t), t.target)
            })
    }

    // Whether a possible transition emits signal s.
    fn emitted(&self, s: usize) -> bool
        ensures { result ≡ some (emits (state_in self.now) (signal_in self.now) s) (chart_of self.now).transitions }
    {
        self.chart.all_transitions().any(|t| self.emits(s, t))
    }

    // The equation of signal s.
    fn signal_of(&self, s: usize) -> StateSet
        ensures { result ≡ signal_of (chart_of self.now) (state_in self.now) (signal_in self.now) s }
    {
        only_if(self.chart.is_input(s) || self.emitted(s), 0)
    }

    // The equation of unknown i: the automata come first, then the signals.
    pub fn equation(&self, i: usize) -> StateSet
        ensures { result ≡ reach_of (chart_of self.now) (state_in self.now) (signal_in self.now) i }
    {
        let first = self.chart.automata();
        if i < first {
            return self.states_of(i);
        }
        self.signal_of(i - first)
    }
}
