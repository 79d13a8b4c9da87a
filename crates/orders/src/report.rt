// What the program prints.
use crate::plan::{Plan, every_room, has_room};
use crate::recorder::Recorder;
use crate::rooms::RoomSet;
use crate::theatre::ROOMS;
use fixpoint::solver::solve;
use fixpoint::worklist::Worklist;
use std::{fmt, io};

// A set of rooms, told by their names.
#[derive(Drop)]
struct ByName(RoomSet);

impl fmt::Display for ByName {
    fn fmt<W: fmt::Write>(&self, f: &mut fmt::Formatter<W>) -> fmt::Result {
        let mut rooms = ROOMS
            .iter()
            .enumerate()
            .filter(|(i, _)| has_room(self.0, *i));
        if let Some((_, first)) = rooms.next() {
            let name = first.name;
            write!(f, " {name}")?;
        }
        for (_, room) in rooms {
            let name = room.name;
            write!(f, ", {name}")?;
        }
        Ok(())
    }
}

// A line for each room: its number, its name and a set of rooms.
fn print_table(rt: &HostRuntime, sets: &[RoomSet]) -> io::Result<()> {
    for (i, (room, set)) in ROOMS.iter().zip(sets).enumerate() {
        let name = room.name;
        let rooms = ByName(*set);
        println!(rt; "    {i} {name}:{rooms}")?;
    }
    Ok(())
}

// The system in words.
pub fn print_plan(rt: &HostRuntime, plan: &Plan) -> io::Result<()> {
    println!(rt; "A theatre has twelve rooms. The doors of each lead, one way, to:")?;
    print_table(rt, &plan.doors)?;
    println!(rt;
        "The equation of a room: what can be reached from it is the room itself, and all"
    )?;
    println!(rt; "that can be reached from the rooms behind its doors.")
}

// Solves the plan with a worklist and an area that were used before, and prints what was taken and what came out.
pub fn solve_under<W: Worklist + Drop>(
    rt: &HostRuntime,
    plan: &Plan,
    order: &str,
    mut worklist: W,
) -> io::Result<()> {
    println!(rt; "")?;
    println!(rt; "{order}")?;
    worklist.put(6);
    worklist.put(2);
    worklist.put(100);
    if let Some(i) = worklist.take() {
        println!(rt; "  before: 6, 2 and 100 are put, {i} is taken; every place holds every room")?;
    }
    let mut recorder = Recorder {
        below: worklist,
        taken: Vec::new(rt.alloc()),
        kept: Ok(()),
    };
    let mut area = [every_room(); 14];
    if let Err(short) = solve(plan, &mut recorder, &mut area) {
        let needed = short.needed;
        return println!(rt; "  refused: {needed} places are needed");
    }
    println!(rt; "  taken while solving:{recorder}")?;
    println!(rt; "  solution:")?;
    print_table(rt, &area)
}
