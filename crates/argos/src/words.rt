// The parts of a chart in words.
use bits::has_bit;
use chart::signal::{Combining, Kind};
use chart::transition::Transition;
use chart::view::Chart;
use std::{fmt, str};

// The word of a kind. A function: the words are this program's, and the kind is not.
pub fn kind_word(kind: Kind) -> &'static str {
    match kind {
        Kind::Input => "input",
        Kind::Output => "output",
        Kind::Local => "local",
    }
}

// What is said of a way of combining. A function, as for a kind.
pub fn combining_words(combining: Combining) -> &'static str {
    match combining {
        Combining::Plain => "",
        Combining::Sum => ", amounts are added up",
        Combining::Largest => ", the largest amount counts",
    }
}

// A signal of a chart, by its number; its text is its name.
#[derive(Clone, Copy)]
pub struct Named<'a> {
    pub chart: Chart<'a>,
    pub signal: usize,
}

impl fmt::Display for Named<'_> {
    fn fmt<W: fmt::Write>(&self, f: &mut fmt::Formatter<W>) -> fmt::Result {
        let name = self.chart.name(self.signal);
        f.write_str(str::from_utf8(name.bytes).map_err(|_| fmt::Error)?)
    }
}

// The signals of a chart that are in a mask; their text is their names, with words between two of them.
#[derive(Clone, Copy)]
struct Names<'a> {
    chart: Chart<'a>,
    mask: u64,
    between: &'static str,
}

impl fmt::Display for Names<'_> {
    fn fmt<W: fmt::Write>(&self, f: &mut fmt::Formatter<W>) -> fmt::Result {
        let chart = self.chart;
        let mask = self.mask;
        let signals = (0..chart.signals()).filter(|s| has_bit(mask, *s));
        for (i, signal) in signals.enumerate() {
            if i > 0 {
                f.write_str(self.between)?;
            }
            let name = Named { chart, signal };
            write!(f, "{name}")?;
        }
        Ok(())
    }
}

// A transition of a chart in words: when it fires, where it goes, what it emits.
#[derive(Clone, Copy)]
pub struct Told<'a> {
    pub chart: Chart<'a>,
    pub transition: Transition,
}

impl<'a> Told<'a> {
    // The names of the signals in a mask.
    fn names(&self, mask: u64, between: &'static str) -> Names<'a> {
        Names {
            chart: self.chart,
            mask,
            between,
        }
    }

    // When it fires: what it needs and what it forbids.
    fn write_guard<W: fmt::Write>(&self, f: &mut fmt::Formatter<W>) -> fmt::Result {
        let needed = self.names(self.transition.needed, " and ");
        let forbidden = self.names(self.transition.forbidden, " and not ");
        match (needed.mask, forbidden.mask) {
            (0, 0) => write!(f, "always"),
            (0, _) => write!(f, "when not {forbidden}"),
            (_, 0) => write!(f, "when {needed}"),
            (_, _) => write!(f, "when {needed} and not {forbidden}"),
        }
    }

    // Where it goes.
    fn write_target<W: fmt::Write>(&self, f: &mut fmt::Formatter<W>) -> fmt::Result {
        let target = self.transition.target;
        if target == self.transition.source {
            write!(f, ": enter state {target} again")
        } else {
            write!(f, ": go to state {target}")
        }
    }

    // Whether its amount matters: one of the signals that it emits combines amounts.
    fn has_amount(&self) -> bool {
        let emitted = self.transition.emitted;
        (0..self.chart.signals()).zip(self.chart.all_signals()).any(|(s, signal)| has_bit(
            emitted, s,
        ) && signal.combining != Combining::Plain)
    }

    // What it emits.
    fn write_emitted<W: fmt::Write>(&self, f: &mut fmt::Formatter<W>) -> fmt::Result {
        let emitted = self.names(self.transition.emitted, " and ");
        if emitted.mask != 0 {
            write!(f, ", emit {emitted}")?;
        }
        if self.has_amount() {
            let amount = self.transition.amount;
            write!(f, " with amount {amount}")?;
        }
        Ok(())
    }
}

impl fmt::Display for Told<'_> {
    fn fmt<W: fmt::Write>(&self, f: &mut fmt::Formatter<W>) -> fmt::Result {
        self.write_guard(f)?;
        self.write_target(f)?;
        self.write_emitted(f)
    }
}
