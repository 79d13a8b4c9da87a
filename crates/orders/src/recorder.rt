// A worklist over any other that records what is taken.
ghost use Rattle.std.specs.Prelude.{◌≡◌, ◌++◌, MatchBool};
ghost use Rattle.std.specs.Option.{option_to_list};
ghost use Rattle.fixpoint.specs.Worklist.{Put, Taken};
ghost use Rattle.std.proofs.Common.{rules};

use fixpoint::worklist::Worklist;
use std::alloc::AllocError;
use std::fmt;

// What was taken, in order; all of it, unless memory was short.
#[derive(Drop)]
pub struct Recorder<W> {
    pub below: W,
    pub taken: Vec<usize>,
    pub kept: Result<(), AllocError>,
}

impl<W: Worklist> Worklist for Recorder<W> {
    ghost waiting = { λ r. W.Worklist.waiting r.below };

    ghost few = { Prim.search rules };

    fn put(&mut self, i: usize) -> bool {
        self.below.put(i)
    }

    fn take(&mut self) -> Option<usize>
        ensures taken { Taken (λ (w : Recorder W). W.Worklist.waiting w.below) self.old result self.new }
        ensures recorded { self.new.kept ≡ Ok tt → self.new.taken.items ≡ self.old.taken.items ++ option_to_list result }
    {
        let taken = self.below.take();
        if let Some(i) = taken {
            if let Err(short) = self.taken.push(i) {
                self.kept = Err(short.into());
            }
        }
        taken
    }

    fn waits(&self, i: usize) -> bool {
        self.below.waits(i)
    }
}

// The numbers that were taken, in order.
impl<W> fmt::Display for Recorder<W> {
    fn fmt<F: fmt::Write>(&self, f: &mut fmt::Formatter<F>) -> fmt::Result {
        for i in &self.taken {
            write!(f, " {i}")?;
        }
        if self.kept.is_err() {
            f.write_str(" and others, for which memory was short")?;
        }
        Ok(())
    }
}
