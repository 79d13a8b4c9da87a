// A chart in words: its signals, then its automata as a tree, each state with its transitions and the automata inside it.
// Runtime and chart stay parameters: a struct of the two would be no plainer, and who prints is seen by its signature.
ghost use Rattle.std.specs.Prelude.{◌<◌, length};
ghost use Rattle.chart.specs.Views.{decoded};

use crate::words::{Named, Told, combining_words, kind_word};
use chart::automaton::Automaton;
use chart::view::Chart;
use std::io;

// Two blanks for each step.
fn indent(rt: &HostRuntime, depth: usize) -> io::Result<()> {
    for _ in 0..depth {
        print!(rt; "  ")?;
    }
    Ok(())
}

// The signals, each with its number: paired with a range, since that the numbers of an enumeration fit would want a proof.
fn print_signals(rt: &HostRuntime, chart: Chart) -> io::Result<()> {
    println!(rt; "signals")?;
    for (s, signal) in (0..chart.signals()).zip(chart.all_signals()) {
        let name = Named { chart, signal: s };
        let kind = kind_word(signal.kind);
        let combining = combining_words(signal.combining);
        println!(rt; "  {s} {name}: {kind}{combining}")?;
    }
    Ok(())
}

// The transitions of one state, in the order in which they are tried.
// An automaton's number and a state stay two parameters: the tree goes by the number, an owner has it as a byte.
fn print_transitions(
    rt: &HostRuntime,
    chart: Chart,
    k: usize,
    state: u8,
    depth: usize,
) -> io::Result<()> {
    let of_state = chart
        .all_transitions()
        .filter(|t| usize::from(t.automaton) == k && t.source == state);
    for transition in of_state {
        indent(rt, depth)?;
        let told = Told { chart, transition };
        println!(rt; "{told}")?;
    }
    Ok(())
}

// Whether automaton j stands in a state of automaton k.
fn stands_in(chart: Chart, j: usize, k: usize, state: u8) -> bool {
    let owner = chart.automaton(j).and_then(|part| part.owner);
    owner.is_some_and(|o| usize::from(o.automaton) == k && o.state == state)
}

// One state of automaton k: its transitions, and the automata inside it. An index loop: the numbers grow, so it ends.
#[cycle(print_automaton_print_state)]
fn print_state(rt: &HostRuntime, chart: Chart, k: usize, state: u8, depth: usize) -> io::Result<()>
    requires { k < length (decoded chart).automata }
{
    indent(rt, depth)?;
    println!(rt; "state {state}")?;
    print_transitions(rt, chart, k, state, depth.saturating_add(1))?;
    for j in k + 1..chart.automata() {
        if stands_in(chart, j, k, state) {
            print_automaton(rt, chart, j, depth.saturating_add(1))?;
        }
    }
    Ok(())
}

// Automaton k with its states.
#[cycle(print_automaton_print_state)]
fn print_automaton(rt: &HostRuntime, chart: Chart, k: usize, depth: usize) -> io::Result<()>
    requires { k < length (decoded chart).automata }
{
    if let Some(automaton) = chart.automaton(k) {
        indent(rt, depth)?;
        let states = automaton.states;
        let first = automaton.first;
        println!(rt; "automaton {k}: {states} states, starts in state {first}")?;
        for state in 0..states {
            print_state(rt, chart, k, state, depth.saturating_add(1))?;
        }
    }
    Ok(())
}

// The signals, and the automata at the top. An index loop: the tree goes by numbers below the count, which a pair of iterators does not tell.
pub fn show(rt: &HostRuntime, chart: Chart) -> io::Result<()> {
    print_signals(rt, chart)?;
    println!(rt; "automata (in each state the first line that holds is taken)")?;
    for k in 0..chart.automata() {
        if let Some(Automaton { owner: None, .. }) = chart.automaton(k) {
            print_automaton(rt, chart, k, 1)?;
        }
    }
    Ok(())
}
