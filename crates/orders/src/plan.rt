// The plan of a theatre: twelve rooms, and the doors that lead from one to another. Its equations say which rooms can be reached from which.
ghost use Rattle.std.specs.Prelude.{◌≡◌, ◌<◌};
ghost use Rattle.orders.specs.Plan.{plan_equations};
ghost use Rattle.orders.specs.PlanLaws.{plan_laws};
ghost use Rattle.orders.specs.Rooms.{none, only, union, has};

use crate::rooms::RoomSet;
use fixpoint::system::System;

// No room.
pub fn no_room() -> RoomSet
    ensures { result ≡ none }
{
    RoomSet { bits: 0 }
}

// Every room.
pub fn every_room() -> RoomSet
    ensures { result.bits ≡ 4095 }
{
    RoomSet { bits: 4095 }
}

// Room i alone.
fn only_room(i: usize) -> RoomSet
    requires { i < 12 }
    ensures { result ≡ only i }
{
    RoomSet { bits: 1 << i }
}

// The rooms of either set.
fn united(a: RoomSet, b: RoomSet) -> RoomSet
    ensures { result ≡ union a b }
{
    RoomSet {
        bits: a.bits | b.bits,
    }
}

// Whether room i is in the set.
pub fn has_room(a: RoomSet, i: usize) -> bool
    ensures { result ≡ has a i }
{
    if i >= 12 {
        return false;
    }
    (a.bits >> i) % 2 == 1
}

// For each room the rooms behind its doors.
#[derive(Clone, Copy)]
pub struct Plan {
    pub doors: [RoomSet; 12],
}

impl System for Plan {
    type Element = RoomSet;

    ghost equations = { λ p. plan_equations p.doors };

    ghost laws = { λ p. plan_laws p.doors };

    fn count(&self) -> usize {
        12
    }

    fn bottom(&self) -> RoomSet {
        no_room()
    }

    fn join(&self, a: RoomSet, b: RoomSet) -> RoomSet {
        united(a, b)
    }

    fn evaluate(&self, i: usize, area: &[RoomSet]) -> RoomSet {
        if i >= 12 || area.len() < 12 {
            return no_room();
        }
        let behind = self.doors[i];
        let mut all = only_room(i);
        for (j, rooms) in area[..12].iter().enumerate() {
            if has_room(behind, j) {
                all = united(all, *rooms);
            }
        }
        all
    }

    fn same(&self, a: RoomSet, b: RoomSet) -> bool {
        a == b
    }

    fn reads(&self, i: usize, j: usize) -> bool {
        i < 12 && has_room(self.doors[i], j)
    }
}
