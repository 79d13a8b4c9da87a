// Lowest first: one bit for each number; the smallest is taken.
ghost use Rattle.std.specs.Prelude.{◌≡◌, ℕ, ◌<◌, true, false, IfSome};
ghost use Rattle.fixpoint.specs.Marks.{marked};
ghost use Rattle.fixpoint.specs.Worklist.{Put, Taken};
ghost use Rattle.std.proofs.Common.{rules};

use crate::marks::Marks;
use crate::worklist::Worklist;

#[derive(Clone, Copy)]
pub struct LowestFirst {
    marks: Marks,
}

impl LowestFirst {
    // A worklist in which nothing waits.
    pub fn new() -> LowestFirst
        ensures { (i : ℕ) → marked result.marks i ≡ false }
    {
        LowestFirst {
            marks: Marks::new(),
        }
    }
}

impl Worklist for LowestFirst {
    ghost waiting = { λ w. marked w.marks };

    ghost few = { Prim.search rules };

    fn put(&mut self, i: usize) -> bool {
        if i > 127 {
            return false;
        }
        self.marks = self.marks.with(i);
        true
    }

    fn take(&mut self) -> Option<usize>
        ensures taken { Taken (λ (w : LowestFirst). marked w.marks) self.old result self.new }
        ensures lowest { IfSome result (λ i. (j : ℕ) → j < i → marked self.old.marks j ≡ false) }
    {
        let taken = self.marks.smallest();
        if let Some(i) = taken {
            self.marks = self.marks.without(i);
        }
        taken
    }

    fn waits(&self, i: usize) -> bool {
        self.marks.has(i)
    }
}
