// A worklist: a set of numbers from 0 to 127 that wait.
ghost use Rattle.std.specs.Prelude.{◌≡◌, ℕ, ◌<◌, Bool, true};
ghost use Rattle.fixpoint.specs.Worklist.{Put, Taken};

pub trait Worklist {
    // Which numbers wait.
    ghost waiting: { Self → ℕ → Bool };

    // Lets i wait too. Above 127 it answers no, and nothing changes.
    // A truth value: the rule is that it answers no, and there is nothing else to tell.
    fn put(&mut self, i: usize) -> bool
        ensures { Put waiting self.old i result self.new };

    // A number that waits, which then waits no more; none where nothing waits.
    fn take(&mut self) -> Option<usize>
        ensures { Taken waiting self.old result self.new };

    // Whether i waits.
    fn waits(&self, i: usize) -> bool
        ensures { result ≡ waiting self.now i };

    // Only numbers from 0 to 127 wait.
    ghost few: { (w : Self) (i : ℕ) → waiting w i ≡ true → i < 128 };
}
