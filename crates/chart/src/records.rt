// The records of a chart, one after the other.
ghost use Rattle.std.specs.Prelude.{◌≡◌, ℕ, ◌≤◌, List, drop, length};
ghost use Rattle.std.specs.Iterator.{YieldsFirst, item_count};
ghost use Rattle.std.specs.List.{slice_get};
ghost use Rattle.chart.specs.Decoded.{Decoded, decode};
ghost use Rattle.chart.specs.Few.{automata_128, few_transitions, signals_128};
ghost use Rattle.chart.specs.Layout.{Layout};
ghost use Rattle.chart.specs.Views.{decoded};

use crate::automaton::Automaton;
use crate::signal::Signal;
use crate::transition::Transition;
use crate::view::Chart;
use std::marker::PhantomData;

// A kind of record, of which a chart has a list.
pub trait Record: Copy {
    // The list, in a decoded chart.
    ghost listed: { Decoded → List Self };

    // Record i.
    fn record(chart: &Chart, i: usize) -> Option<Self>
        ensures { result ≡ slice_get (listed (decoded chart.now)) i };

    // No chart has more than 128.
    ghost few: { (bs : List ℕ) → ∥ Layout bs ∥₁ → length (listed (decode bs)) ≤ 128 };
}

impl Record for Signal {
    ghost listed = { λ c. c.signals };

    ghost few = { signals_128 };

    fn record(chart: &Chart, i: usize) -> Option<Signal> {
        chart.signal(i)
    }
}

impl Record for Automaton {
    ghost listed = { λ c. c.automata };

    ghost few = { automata_128 };

    fn record(chart: &Chart, i: usize) -> Option<Automaton> {
        chart.automaton(i)
    }
}

impl Record for Transition {
    ghost listed = { λ c. c.transitions };

    ghost few = { few_transitions };

    fn record(chart: &Chart, i: usize) -> Option<Transition> {
        chart.transition(i)
    }
}

// What is left of the records of one kind, in file order.
#[derive(Clone, Copy)]
pub struct Records<'a, R: Record> {
    chart: Chart<'a>,
    next: usize,
    kind: PhantomData<R>,
}

pub type Signals<'a> = Records<'a, Signal>;

pub type Automata<'a> = Records<'a, Automaton>;

pub type Transitions<'a> = Records<'a, Transition>;

impl<'a, R: Record> Records<'a, R> {
    // All of them.
    pub(crate) fn all(chart: Chart<'a>) -> Records<'a, R>
        ensures { drop result.next (R.listed (decoded result.chart)) ≡ R.listed (decoded chart.entry) }
    {
        Records {
            chart,
            next: 0,
            kind: PhantomData,
        }
    }
}

impl<'a, R: Record> Iterator for Records<'a, R> {
    type Item = R;

    ghost next_gives = { YieldsFirst (λ s. drop s.next (R.listed (decoded s.chart))) };

    ghost remaining = { item_count (λ s. drop s.next (R.listed (decoded s.chart))) };

    fn next(&mut self) -> Option<R> {
        let record = R::record(&self.chart, self.next)?;
        // Counted by hand: an iterator of our own keeps its place.
        self.next += 1;
        Some(record)
    }
}
