// Which transitions fired in an instant.
ghost use Rattle.std.specs.Prelude.{◌≡◌};
ghost use Rattle.fixpoint.specs.Marks.{marked};

use fixpoint::marks::Marks;

// A set of transition numbers.
#[derive(Clone, Copy)]
pub struct Fired {
    pub set: Marks,
}

impl Fired {
    // Whether transition k fired.
    pub fn has(&self, k: usize) -> bool
        ensures { result ≡ marked self.now.set k }
    {
        self.set.has(k)
    }
}
