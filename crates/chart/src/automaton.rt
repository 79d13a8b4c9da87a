// An automaton of a chart.
ghost use Rattle.std.specs.Prelude.{◌≡◌};
ghost use Rattle.chart.specs.Decoded.{automaton_of};

// The automaton whose state holds this one.
#[derive(Clone, Copy, Debug, PartialEq, Eq)]
pub struct Owner {
    pub automaton: u8,
    pub state: u8,
}

// An automaton at the top has no owner.
#[derive(Clone, Copy, Debug, PartialEq, Eq)]
pub struct Automaton {
    pub owner: Option<Owner>,
    pub states: u8,
    pub first: u8,
}

// The automaton that a record stands for; an owner of 255 is the top.
impl From<[u8; 4]> for Automaton {
    ghost from_gives = { λ bytes r. r ≡ automaton_of bytes };

    fn from([automaton, state, states, first]: [u8; 4]) -> Automaton {
        Automaton {
            owner: (automaton != 255).then_some(Owner { automaton, state }),
            states,
            first,
        }
    }
}
