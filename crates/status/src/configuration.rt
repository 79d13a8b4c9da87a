// Which state each automaton holds.
ghost use Rattle.std.specs.Prelude.{◌≡◌};
ghost use Rattle.status.specs.Configuration.{holds};

// For each automaton the state that it holds, or none.
#[derive(Clone, Copy, Debug, PartialEq, Eq)]
pub struct Configuration {
    pub states: [Option<u8>; 32],
}

impl Configuration {
    // Whether automaton k holds that state.
    pub fn holds(&self, k: usize, state: u8) -> bool
        ensures { result ≡ holds self.now.states k state }
    {
        self.states.get(k).copied().flatten() == Some(state)
    }
}
