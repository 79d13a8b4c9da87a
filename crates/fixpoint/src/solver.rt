// The solver: the least solution of a system, whatever the order of work.
ghost use Rattle.std.specs.Prelude.{◌≡◌, ℕ, ◌<◌, ◌≤◌, ◌||◌, length, drop, Ok, Err, nat_lt};
ghost use Rattle.fixpoint.specs.Solver.{Raised, Solved, readers};
ghost use Rattle.fixpoint.specs.System.{place};

use crate::system::System;
use crate::worklist::Worklist;

// The area has too few places: how many are needed.
#[derive(Clone, Copy, Debug, PartialEq, Eq)]
pub struct ShortArea {
    pub needed: usize,
}

// Sets the first n places to the bottom.
fn clear<S: System>(system: &S, n: usize, area: &mut [S::Element])
    requires { n ≤ length area.old }
    ensures { ((k : ℕ) → k < n → place (S.equations system.now) area.new k ≡ (S.equations system.now).bottom) × (drop n area.new ≡ drop n area.old) }
{
    for unknown in area[..n].iter_mut() {
        *unknown = system.bottom();
    }
}

// Lets every number below n wait.
fn put_all<W: Worklist>(worklist: &mut W, n: usize)
    requires { n ≤ 128 }
    ensures { (j : ℕ) → W.waiting worklist.new j ≡ (W.waiting worklist.old j || nat_lt j n) }
{
    // An index loop: the numbers of the unknowns are what is put.
    for i in 0..n {
        worklist.put(i);
    }
}

// Lets the readers of unknown i wait.
fn put_readers<S: System, W: Worklist>(system: &S, worklist: &mut W, i: usize)
    ensures { (j : ℕ) → W.waiting worklist.new j ≡ (W.waiting worklist.old j || readers (S.equations system.now) i j) }
{
    // An index loop: the numbers are what is put, and a filter's state and captures would stand in the invariant too.
    for j in 0..system.count() {
        if system.reads(j, i) {
            worklist.put(j);
        }
    }
}

// Raises place i to what its equation gives.
fn raise<S: System, W: Worklist>(system: &S, worklist: &mut W, area: &mut [S::Element], i: usize)
    requires { i < length area.old }
    ensures { Raised (S.equations system.now) i area.old (W.waiting worklist.old) area.new (W.waiting worklist.new) }
{
    let old = area[i];
    let value = system.join(old, system.evaluate(i, area));
    if !system.same(value, old) {
        area[i] = value;
        put_readers(system, worklist, i);
    }
}

// Solves a system in the first places of the area, with any worklist, whatever either holds before.
pub fn solve<S: System, W: Worklist>(
    system: &S,
    worklist: &mut W,
    area: &mut [S::Element],
) -> Result<(), ShortArea>
    ensures refused { length area.old < (S.equations system.now).count → (result ≡ Err (record { needed = (S.equations system.now).count })) × (area.new ≡ area.old) × (worklist.new ≡ worklist.old) }
    ensures solved { (S.equations system.now).count ≤ length area.old → (result ≡ Ok tt) × Solved (S.equations system.now) area.old area.new (W.waiting worklist.new) }
{
    let n = system.count();
    if area.len() < n {
        return Err(ShortArea { needed: n });
    }
    clear(system, n, area);
    put_all(worklist, n);
    while let Some(i) = worklist.take() {
        if i < n {
            raise(system, worklist, area, i);
        }
    }
    Ok(())
}
