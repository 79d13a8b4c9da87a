// Why a chart file is refused.
ghost use Rattle.std.specs.Prelude.{◌≡◌, Some};
ghost use Rattle.chart.specs.Fault.{detail_of, layer_of, number_of, text_of};

use std::fmt;

#[derive(Clone, Copy, Debug, PartialEq, Eq)]
pub enum ChartFault {
    // The bytes end early: their number.
    EndsEarly(usize),
    // A count is outside its range: its place.
    CountOutOfRange(usize),
    // A signal breaks a rule: the record's place.
    BrokenSignal(usize),
    // An automaton breaks a rule: the record's place.
    BrokenAutomaton(usize),
    // A transition breaks a rule: the record's place.
    BrokenTransition(usize),
    // Bytes remain: the place of the first.
    BytesRemain(usize),
}

impl ChartFault {
    pub fn layer(&self) -> &'static str
        ensures { result.now ≡ layer_of self.now }
    {
        "chart"
    }

    pub fn number(&self) -> u8
        ensures { result ≡ number_of self.now }
    {
        match self {
            ChartFault::EndsEarly(_) => 1,
            ChartFault::CountOutOfRange(_) => 2,
            ChartFault::BrokenSignal(_) => 3,
            ChartFault::BrokenAutomaton(_) => 4,
            ChartFault::BrokenTransition(_) => 5,
            ChartFault::BytesRemain(_) => 6,
        }
    }

    pub fn detail(&self) -> usize
        ensures { result ≡ detail_of self.now }
    {
        match self {
            ChartFault::EndsEarly(detail)
            | ChartFault::CountOutOfRange(detail)
            | ChartFault::BrokenSignal(detail)
            | ChartFault::BrokenAutomaton(detail)
            | ChartFault::BrokenTransition(detail)
            | ChartFault::BytesRemain(detail) => *detail,
        }
    }
}

// Number, space, detail.
impl fmt::Display for ChartFault {
    ghost output = { λ x. Some (text_of x) };

    fn fmt<W: fmt::Write>(&self, f: &mut fmt::Formatter<W>) -> fmt::Result {
        write!(f, "{} {}", self.number(), self.detail())
    }
}
