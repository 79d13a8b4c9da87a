// One call that publishes: a table, the reachable sets, and the runner's next call.
ghost use Rattle.std.specs.Prelude.{◌≡◌, ◌≤◌, ◌⊎◌, List, length};
ghost use Rattle.analysis.specs.Reach.{reach_equations, unknowns};
ghost use Rattle.engine.specs.Publish.{Makes, Solves, Solving, Worked, told_call};
ghost use Rattle.engine.specs.Reached.{StatesReached, StoryPossible};
ghost use Rattle.engine.specs.Runner.{Adds, SameFile, Tells, holding, rules};
ghost use Rattle.engine.specs.Story.{Told};
ghost use Rattle.engine.specs.Theorem.{Theorem};

use crate::runner::Runner;
use analysis::reach::reach;
use analysis::stateset::StateSet;
use fixpoint::solver::{ShortArea, solve};
use fixpoint::system::System;
use fixpoint::worklist::Worklist;
use reaction::fault::Fault;
use status::status::Status;

// The next call on a runner.
#[derive(Clone, Copy, Debug, PartialEq, Eq)]
pub enum NextCall {
    // Back to the start.
    Reset,
    // An instant with this mask of inputs.
    Instant(u64),
}

// What was answered: by solving the table, by solving the sets, and by the call, if it was an instant.
#[derive(Clone, Copy, Debug, PartialEq, Eq)]
pub struct Published {
    pub table: Result<(), ShortArea>,
    pub sets: Result<(), ShortArea>,
    pub answer: Option<Result<usize, Fault>>,
}

// Makes the next call on a runner.
// The worklist, the area and the buffer stay parameters: a struct of them would be made here and taken apart at once.
fn make<W: Worklist>(
    runner: &mut Runner,
    call: NextCall,
    worklist: &mut W,
    area: &mut [Status],
    line: &mut [u8],
) -> Option<Result<usize, Fault>>
    ensures same { SameFile runner.old runner.new }
    ensures makes { Makes (rules runner.old) (holding runner.old) call area.old area.new line.old line.new result (holding runner.new) }
    ensures worked { Worked (Solving (rules runner.old) (holding runner.old) call (length area.old)) (W.waiting worklist.new) (worklist.new ≡ worklist.old) }
    ensures stories { Adds runner.old (told_call (rules runner.old) (holding runner.old) call (length area.old) (length line.old)) runner.new }
{
    match call {
        NextCall::Reset => {
            runner.reset();
            None
        }
        NextCall::Instant(mask) => Some(runner.instant(mask, worklist, area, line)),
    }
}

// Solves a table and the runner's reachable sets and makes the runner's next call, all with one worklist.
// A table or sets that are refused for want of places do not keep the call from being made.
// All that is lent stays a parameter of its own, as an instant's are: a rule of the project.
pub fn publish<S: System, W: Worklist>(
    table: &S,
    cells: &mut [S::Element],
    sets: &mut [StateSet],
    runner: &mut Runner,
    call: NextCall,
    worklist: &mut W,
    area: &mut [Status],
    line: &mut [u8],
) -> Published
    ensures table { Solves (S.equations table.now) cells.old cells.new result.table }
    ensures sets { Solves (reach_equations (rules runner.old)) sets.old sets.new result.sets }
    ensures same { SameFile runner.old runner.new }
    ensures makes { Makes (rules runner.old) (holding runner.old) call area.old area.new line.old line.new result.answer (holding runner.new) }
    ensures worked { Worked ((((S.equations table.now).count ≤ length cells.old) ⊎ (unknowns (rules runner.old) ≤ length sets.old)) ⊎ Solving (rules runner.old) (holding runner.old) call (length area.old)) (W.waiting worklist.new) (worklist.new ≡ worklist.old) }
    ensures past { ∥ ((story : List Told) × Tells runner.new story) ∥₁ }
    ensures stories { Adds runner.old (told_call (rules runner.old) (holding runner.old) call (length area.old) (length line.old)) runner.new }
    ensures reached { unknowns (rules runner.old) ≤ length sets.old → (story : List Told) → Tells runner.new story → StatesReached (rules runner.old) sets.new runner.new.configuration.states × StoryPossible (rules runner.old) sets.new story }
    ensures theorem { Theorem }
{
    let table = solve(table, worklist, cells);
    let sets = reach(runner.chart, sets, worklist);
    let answer = make(runner, call, worklist, area, line);
    Published {
        table,
        sets,
        answer,
    }
}
