// Order of arrival: the number that has waited longest is taken.
ghost use Rattle.std.specs.Prelude.{◌≡◌, ℕ, ◌<◌, true, [], length, drop};
ghost use Rattle.fixpoint.specs.Arrival.{arrived, front};
ghost use Rattle.fixpoint.specs.Marks.{marked};
ghost use Rattle.fixpoint.specs.Numbers.{has, distinct};
ghost use Rattle.fixpoint.specs.Ring.{queue_of};
ghost use Rattle.fixpoint.specs.Worklist.{Put, Taken, tally};
ghost use Rattle.std.proofs.Common.{rules};

use crate::marks::Marks;
use crate::ring::Ring;
use crate::worklist::Worklist;

// The numbers that wait stand in a ring; beside it a mark for each.
#[derive(Drop)]
pub struct ArrivalOrder {
    ring: Ring,
    marks: Marks,
    ghost agree: { (j : ℕ) → marked marks j ≡ has j (queue_of ring) },
    ghost once: { distinct (queue_of ring) ≡ true },
    ghost counted: { length (queue_of ring) ≡ tally (marked marks) 128 },
}

impl ArrivalOrder {
    // A worklist in which nothing waits.
    pub fn new() -> ArrivalOrder
        ensures { queue_of result.ring ≡ [] }
    {
        ArrivalOrder {
            ring: Ring::new(),
            marks: Marks::new(),
        }
    }
}

impl Worklist for ArrivalOrder {
    ghost waiting = { λ w j. has j (queue_of w.ring) };

    ghost few = { Prim.search rules };

    fn put(&mut self, i: usize) -> bool
        ensures put { Put (λ (w : ArrivalOrder) j. has j (queue_of w.ring)) self.old i result self.new }
        ensures queued { queue_of self.new.ring ≡ arrived i (queue_of self.old.ring) }
        ensures kept { has i (queue_of self.old.ring) ≡ true → self.new ≡ self.old }
    {
        if i > 127 {
            return false;
        }
        if !self.marks.has(i) {
            self.ring.push(i as u8);
            self.marks = self.marks.with(i);
        }
        true
    }

    fn take(&mut self) -> Option<usize>
        ensures taken { Taken (λ (w : ArrivalOrder) j. has j (queue_of w.ring)) self.old result self.new }
        ensures longest { result ≡ front (queue_of self.old.ring) }
        ensures queued { queue_of self.new.ring ≡ drop 1 (queue_of self.old.ring) }
    {
        let i = usize::from(self.ring.pop()?);
        self.marks = self.marks.without(i);
        Some(i)
    }

    fn waits(&self, i: usize) -> bool {
        self.marks.has(i)
    }
}
