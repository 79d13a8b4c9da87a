// What a chart can reach, in words: which signals can be present, and which states each automaton can hold.
use crate::words::Named;
use analysis::reach::reach;
use analysis::stateset::StateSet;
use chart::automaton::Owner;
use chart::view::Chart;
use fixpoint::lowest::LowestFirst;
use fixpoint::worklist::Worklist;
use std::io;

// Whether each signal can be present; the sets of the signals stand after those of the automata.
fn print_signals(rt: &HostRuntime, chart: Chart, sets: &[StateSet]) -> io::Result<()> {
    println!(rt; "signals")?;
    let of_signals = sets.iter().skip(chart.automata());
    for (s, set) in of_signals.take(chart.signals()).enumerate() {
        let name = Named { chart, signal: s };
        let can = if set.holds(0) { "can" } else { "cannot" };
        println!(rt; "  {s} {name}: {can} be present")?;
    }
    Ok(())
}

// The states of an automaton that pass a test, after what is said of them.
fn print_states<F: Fn(usize) -> bool>(
    rt: &HostRuntime,
    can: &str,
    states: u8,
    test: F,
) -> io::Result<()>
    requires { F.IsAlwaysCallable test }
{
    print!(rt; "    {can} hold:")?;
    let mut passing = (0..states).filter(|state| test(usize::from(*state)));
    let Some(first) = passing.next() else {
        return println!(rt; " no state");
    };
    print!(rt; " state {first}")?;
    for state in passing {
        print!(rt; ", state {state}")?;
    }
    println!(rt; "")
}

// Where an automaton stands: at the top, or in a state of another.
fn print_owner(rt: &HostRuntime, owner: Option<Owner>) -> io::Result<()> {
    match owner {
        None => println!(rt; ", at the top"),
        Some(Owner { automaton, state }) => {
            println!(rt; ", in state {state} of automaton {automaton}")
        }
    }
}

// The states that each automaton can hold, and those that it cannot.
fn print_automata(rt: &HostRuntime, chart: Chart, sets: &[StateSet]) -> io::Result<()> {
    println!(rt; "automata")?;
    for ((k, set), automaton) in sets.iter().enumerate().zip(chart.all_automata()) {
        print!(rt; "  automaton {k}")?;
        print_owner(rt, automaton.owner)?;
        print_states(rt, "can", automaton.states, |state| set.holds(state))?;
        print_states(rt, "cannot", automaton.states, |state| !set.holds(state))?;
    }
    Ok(())
}

// A chart has at most 32 automata and 64 signals, so 96 places are always enough.
pub fn tell_reach(rt: &HostRuntime, chart: Chart) -> io::Result<()> {
    let mut sets = [StateSet::empty(); 96];
    let Ok(()) = reach(chart, &mut sets, &mut LowestFirst::new()) else {
        unreachable()
    };
    print_signals(rt, chart, &sets)?;
    print_automata(rt, chart, &sets)
}
