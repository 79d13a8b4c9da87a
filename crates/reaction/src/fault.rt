// Why the engine refuses, over all layers.
ghost use Rattle.std.specs.Prelude.{◌≡◌, Some};
ghost use Rattle.reaction.specs.Fault.{detail_of, instant_detail, instant_number, layer_of, number_of, text_of};
ghost use Rattle.reaction.specs.declared.fault.Fault.TheVariants.{Chart, Instant, Solver};

use chart::fault::ChartFault;
use fixpoint::solver::ShortArea;
use std::fmt;

// Why an instant is refused.
#[derive(Clone, Copy, Debug, PartialEq, Eq)]
pub enum InstantFault {
    // The mask has bits that are not inputs: those bits.
    NotInputs(u64),
    // A million instants have been counted.
    CountReached,
    // Signals are unresolved: their mask.
    Unresolved(u64),
    // The line is longer than the buffer: its length.
    LongLine(usize),
}

// A fault of any layer.
#[derive(Clone, Copy, Debug, PartialEq, Eq)]
pub enum Fault {
    // The file is no chart.
    Chart(ChartFault),
    // The instant is refused.
    Instant(InstantFault),
    // The work area has too few places.
    Solver(ShortArea),
}

impl From<ChartFault> for Fault {
    ghost from_gives = { λ x r. r ≡ Chart x };

    fn from(fault: ChartFault) -> Fault {
        Fault::Chart(fault)
    }
}

impl From<InstantFault> for Fault {
    ghost from_gives = { λ x r. r ≡ Instant x };

    fn from(fault: InstantFault) -> Fault {
        Fault::Instant(fault)
    }
}

impl From<ShortArea> for Fault {
    ghost from_gives = { λ x r. r ≡ Solver x };

    fn from(fault: ShortArea) -> Fault {
        Fault::Solver(fault)
    }
}

impl InstantFault {
    // A match: the numbers are a table of their own, over two layers, and no enum has them in its order.
    fn number(&self) -> u8
        ensures { result ≡ instant_number self.now }
    {
        match self {
            InstantFault::NotInputs(_) => 7,
            InstantFault::CountReached => 8,
            InstantFault::Unresolved(_) => 10,
            InstantFault::LongLine(_) => 11,
        }
    }

    fn detail(&self) -> u64
        ensures { result ≡ instant_detail self.now }
    {
        match self {
            InstantFault::NotInputs(bits) => *bits,
            InstantFault::CountReached => 1_000_000,
            InstantFault::Unresolved(signals) => *signals,
            InstantFault::LongLine(length) => *length as u64,
        }
    }
}

impl Fault {
    pub fn layer(&self) -> &'static str
        ensures { result.now ≡ layer_of self.now }
    {
        match self {
            Fault::Chart(fault) => fault.layer(),
            Fault::Instant(_) => "instant",
            Fault::Solver(_) => "solver",
        }
    }

    pub fn number(&self) -> u8
        ensures { result ≡ number_of self.now }
    {
        match self {
            Fault::Chart(fault) => fault.number(),
            Fault::Instant(fault) => fault.number(),
            Fault::Solver(_) => 9,
        }
    }

    pub fn detail(&self) -> u64
        ensures { result ≡ detail_of self.now }
    {
        match self {
            Fault::Chart(fault) => fault.detail() as u64,
            Fault::Instant(fault) => fault.detail(),
            Fault::Solver(short) => short.needed as u64,
        }
    }
}

// Number, space, detail.
impl fmt::Display for Fault {
    ghost output = { λ x. Some (text_of x) };

    fn fmt<W: fmt::Write>(&self, f: &mut fmt::Formatter<W>) -> fmt::Result {
        write!(f, "{} {}", self.number(), self.detail())
    }
}
