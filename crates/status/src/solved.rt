// Solving the equations of an instant.
ghost use Rattle.std.specs.Prelude.{◌≡◌, ℕ, ◌<◌, ◌≤◌, ◌&&◌, length, MatchResult, nat_lt, slice_index_or};
ghost use Rattle.bits.specs.Bits.{bit};
ghost use Rattle.status.specs.Solved.{Resolved, is_unknown};
ghost use Rattle.status.specs.Status.{unknown};
ghost use Rattle.status.specs.StatusSystem.{chart_of, states_of};

use crate::equations::{StatusSystem, marked};
use crate::status::Status;
use fixpoint::solver::{ShortArea, solve};
use fixpoint::system::System;
use fixpoint::worklist::Worklist;

// The mask of the signals that are unknown in an area.
fn unknown_signals(area: &[Status]) -> u64
    requires { length area.now ≤ 64 }
    ensures { (s : ℕ) → bit result s ≡ (nat_lt s (length area.now) && is_unknown (slice_index_or area.now s unknown)) }
{
    let mut mask = 0;
    for (s, status) in area.iter().enumerate() {
        mask = marked(mask, s, *status == Status::default());
    }
    mask
}

// Solves an instant's equations in an area, with any worklist, and answers the mask of the unresolved signals.
pub fn resolve<W: Worklist>(
    system: &StatusSystem,
    worklist: &mut W,
    area: &mut [Status],
) -> Result<u64, ShortArea>
    ensures { MatchResult result (λ m. Resolved (chart_of system.now) (states_of system.now) system.now.mask area.old area.new (W.waiting worklist.new) m) (λ e. (length area.old < e.needed) × (e.needed ≡ length (chart_of system.now).signals) × (area.new ≡ area.old) × (worklist.new ≡ worklist.old)) }
{
    solve(system, worklist, area)?;
    Ok(unknown_signals(&area[..system.count()]))
}
