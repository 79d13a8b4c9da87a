// Latest first: up to eight numbers over any other worklist; the newest is taken.
ghost use Rattle.std.specs.Prelude.{◌≡◌, ℕ, ◌<◌, true, false, []};
ghost use Rattle.fixpoint.specs.Latest.{PutLatest, TakenLatest, newest_outside, union};
ghost use Rattle.fixpoint.specs.Numbers.{small};
ghost use Rattle.fixpoint.specs.Worklist.{Put, Taken};
ghost use Rattle.std.proofs.Common.{⊎_elim};
ghost use Rattle.std.proofs.lemmas.Bool.{or_cases};
ghost use Rattle.fixpoint.specs.Held.{small_has};

use crate::table::{self, Table};
use crate::worklist::Worklist;

#[derive(Drop)]
pub struct LatestFirst<W> {
    below: W,
    eight: Table,
    ghost fits: { small eight.items ≡ true },
}

impl<W> LatestFirst<W> {
    // None of the eight, over a worklist that may hold some.
    pub fn new(below: W) -> LatestFirst<W>
        ensures { (result.eight.items ≡ []) × (result.below ≡ below) }
    {
        LatestFirst {
            below,
            eight: Table::new(),
        }
    }
}

// The newest number of a table that does not wait below.
fn newest_outside<W: Worklist>(eight: &Table, below: &W) -> Option<u8>
    ensures { result ≡ newest_outside (W.waiting below.now) eight.now.items }
{
    eight
        .iter()
        .rev()
        .copied()
        .find(|i| !below.waits(usize::from(*i)))
}

impl<W: Worklist> Worklist for LatestFirst<W> {
    ghost waiting = { λ w. union w.eight.items (W.Worklist.waiting w.below) };

    ghost few = { λ w i h. ⊎_elim (small_has w.eight.items i w.fits) (W.Worklist.few w.below i) (or_cases _ _ h) };

    fn put(&mut self, i: usize) -> bool
        ensures put { Put (λ (w : LatestFirst W). union w.eight.items (W.Worklist.waiting w.below)) self.old i result self.new }
        ensures kept { union self.old.eight.items (W.Worklist.waiting self.old.below) i ≡ true → self.new ≡ self.old }
        ensures layered { i < 128 → union self.old.eight.items (W.Worklist.waiting self.old.below) i ≡ false → PutLatest W.Worklist.waiting self.old.eight.items self.old.below i self.new.eight.items self.new.below }
    {
        if i > 127 {
            return false;
        }
        if !self.waits(i) {
            if let Some(oldest) = table::push(&mut self.eight, i as u8) {
                self.below.put(usize::from(oldest));
            }
        }
        true
    }

    fn take(&mut self) -> Option<usize>
        ensures taken { Taken (λ (w : LatestFirst W). union w.eight.items (W.Worklist.waiting w.below)) self.old result self.new }
        ensures layered { TakenLatest W.Worklist.waiting self.old.eight.items self.old.below result self.new.eight.items self.new.below }
    {
        let i = match newest_outside(&self.eight, &self.below) {
            Some(i) => usize::from(i),
            None => self.below.take()?,
        };
        table::leave(&mut self.eight, i);
        Some(i)
    }

    fn waits(&self, i: usize) -> bool {
        table::has(&self.eight, i) || self.below.waits(i)
    }
}
