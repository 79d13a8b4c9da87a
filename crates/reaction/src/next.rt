// The configuration after an instant, and the one that a chart starts in.
ghost use Rattle.std.specs.Prelude.{◌≡◌, ℕ, ◌≤◌, map, length, None, slice_get, slice_index_or};
ghost use Rattle.chart.specs.Views.{decoded};
ghost use Rattle.fixpoint.specs.Marks.{marked};
ghost use Rattle.reaction.specs.Next.{Gives, fired_by, kept, moved, next, padded, state_of, starting, states_of, under};
ghost use Rattle.reaction.specs.declared.next.Outcome.TheVariants.{Gone};

use arrayvec::ArrayVec;
use chart::automaton::{Automaton, Owner};
use chart::transition::Transition;
use chart::view::Chart;
use status::configuration::Configuration;
use status::fired::Fired;
use std::array;

// What becomes of an automaton in an instant.
#[derive(Clone, Copy, Default)]
enum Outcome {
    // It holds no state.
    #[default]
    Gone,
    // It holds the state that it held before.
    Stays(u8),
    // It fired or was started, and holds that state.
    Enters(u8),
}

impl Outcome {
    // An automaton that does nothing, given the state that it holds.
    fn kept(held: Option<u8>) -> Outcome
        ensures { result ≡ kept held }
    {
        held.map_or(Outcome::Gone, Outcome::Stays)
    }

    // The state that the automaton then holds.
    fn state(&self) -> Option<u8>
        ensures { result ≡ state_of self.now }
    {
        match *self {
            Outcome::Gone => None,
            Outcome::Stays(state) | Outcome::Enters(state) => Some(state),
        }
    }
}

// The first transition of automaton k that fired.
// A chart and what fired stay two parameters, here and below: `next` and `value` are given them apart.
fn fired_of(chart: &Chart, fired: Fired, k: usize) -> Option<Transition>
    ensures { result ≡ slice_get (fired_by (decoded chart.now) (marked fired.set) k) 0 }
{
    chart
        .all_transitions()
        .enumerate()
        .find(|(i, transition)| fired.has(*i) & (usize::from(transition.automaton) == k))
        .map(|(_, transition)| transition)
}

// What automaton k does by itself: it moves by its fired transition, or stays.
fn move_of(chart: &Chart, fired: Fired, before: &Configuration, k: usize) -> Outcome
    ensures { result ≡ moved (fired_by (decoded chart.now) (marked fired.set) k) (slice_index_or before.now.states k None) }
{
    match fired_of(chart, fired, k) {
        Some(transition) => Outcome::Enters(transition.target),
        None => Outcome::kept(before.states.get(k).copied().flatten()),
    }
}

// What becomes of an automaton under its owner, given what became of the automata before it.
fn under(owner: Option<Owner>, before: &[Outcome], itself: Outcome, start: Outcome) -> Outcome
    ensures { result ≡ under owner before.now itself start }
{
    let Some(owner) = owner else {
        return itself;
    };
    match before.get(usize::from(owner.automaton)).copied() {
        Some(Outcome::Stays(state)) if state == owner.state => itself,
        Some(Outcome::Enters(state)) if state == owner.state => start,
        _ => Outcome::Gone,
    }
}

// The state that automaton k then holds; an automaton beyond these holds none.
fn state_at(outcomes: &[Outcome], k: usize) -> Option<u8>
    ensures { result ≡ state_of (slice_index_or outcomes.now k Gone) }
{
    outcomes.get(k)?.state()
}

// The configuration with the states of these automata; the places beyond them hold none.
fn configuration_of(outcomes: &[Outcome]) -> Configuration
    requires { length outcomes.now ≤ 32 }
    ensures { result.states ≡ padded (map state_of outcomes.now) }
{
    Configuration {
        states: array::from_fn(|k| state_at(outcomes, k)),
    }
}

// The configuration that comes of what each automaton does by itself, owners first.
fn configured<F: Fn(usize, Automaton) -> Outcome>(chart: &Chart, itself: F) -> Configuration
    requires { F.IsAlwaysCallable itself }
    ensures { (does : ℕ → Outcome) → Gives (decoded chart.now) (F.post itself) does → result.states ≡ padded (states_of (decoded chart.now) does) }
{
    let mut outcomes: ArrayVec<Outcome, 32> = ArrayVec::new();
    for (k, automaton) in chart.all_automata().enumerate() {
        let by_itself = itself(k, automaton);
        let start = Outcome::Enters(automaton.first);
        let outcome = under(automaton.owner, &outcomes, by_itself, start);
        outcomes.push(outcome);
    }
    configuration_of(&outcomes)
}

// The configuration after an instant in which these transitions fired.
pub fn next(chart: &Chart, fired: Fired, before: &Configuration) -> Configuration
    ensures { result.states ≡ padded (next (decoded chart.now) (marked fired.set) before.now.states) }
{
    configured(chart, |k, _| move_of(chart, fired, before, k))
}

// The configuration that a chart starts in.
pub fn start(chart: &Chart) -> Configuration
    ensures { result.states ≡ padded (starting (decoded chart.now)) }
{
    configured(chart, |_, automaton| Outcome::Enters(automaton.first))
}
