// A signal of a chart.
ghost use Rattle.std.specs.Prelude.{◌≡◌};
ghost use Rattle.chart.specs.Codes.{combining_of, kind_of};
ghost use Rattle.chart.specs.Decoded.{signal_of};

// Inputs come from outside, outputs are printed, locals stay inside.
#[derive(Clone, Copy, Debug, PartialEq, Eq)]
pub enum Kind {
    Input,
    Output,
    Local,
}

// A byte above 2, which no chart has, stands for a local too.
impl From<u8> for Kind {
    ghost from_gives = { λ b r. r ≡ kind_of b };

    fn from(b: u8) -> Kind {
        match b {
            0 => Kind::Input,
            1 => Kind::Output,
            _ => Kind::Local,
        }
    }
}

// How the amounts of a signal are combined, if it has any.
#[derive(Clone, Copy, Debug, PartialEq, Eq)]
pub enum Combining {
    Plain,
    Sum,
    Largest,
}

impl From<u8> for Combining {
    ghost from_gives = { λ b r. r ≡ combining_of b };

    fn from(b: u8) -> Combining {
        match b {
            0 => Combining::Plain,
            1 => Combining::Sum,
            _ => Combining::Largest,
        }
    }
}

#[derive(Clone, Copy, Debug, PartialEq, Eq)]
pub struct Signal {
    pub kind: Kind,
    pub combining: Combining,
}

// The signal that a record stands for.
impl From<[u8; 10]> for Signal {
    ghost from_gives = { λ bytes r. r ≡ signal_of bytes };

    fn from(bytes: [u8; 10]) -> Signal {
        Signal {
            kind: Kind::from(bytes[0]),
            combining: Combining::from(bytes[1]),
        }
    }
}

// A signal's name: a part of the file, and its place there.
#[derive(Clone, Copy, Debug, PartialEq, Eq)]
pub struct Name<'a> {
    pub bytes: &'a [u8],
    pub place: usize,
}
