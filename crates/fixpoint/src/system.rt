// A system of equations: its meaning, its laws, and the calls that a solver makes.
ghost use Rattle.std.specs.Prelude.{◌≡◌, MatchBool, ◌≢◌};
ghost use Rattle.fixpoint.specs.System.{Equations, Laws};

pub trait System {
    type Element: Copy;

    // What this value stands for: bottom, join, rank, height, count, evaluation and what is read.
    ghost equations: { Self → Equations Self.Element };

    // What each implementation proves.
    ghost laws: { (s : Self) → Laws (equations s) };

    // How many equations there are.
    fn count(&self) -> usize
        ensures { result ≡ (equations self.now).count };

    fn bottom(&self) -> Self::Element
        ensures { result ≡ (equations self.now).bottom };

    fn join(&self, a: Self::Element, b: Self::Element) -> Self::Element
        ensures { result ≡ (equations self.now).join a b };

    // The value of equation i on the assignment that the area holds.
    fn evaluate(&self, i: usize, area: &[Self::Element]) -> Self::Element
        ensures { result ≡ (equations self.now).evaluate i area.now };

    // Whether two elements are the same.
    fn same(&self, a: Self::Element, b: Self::Element) -> bool
        ensures { MatchBool result (a ≡ b) (a ≢ b) };

    // Whether equation i reads unknown j.
    fn reads(&self, i: usize, j: usize) -> bool
        ensures { result ≡ (equations self.now).reads i j };
}
