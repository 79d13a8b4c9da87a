// The limits of the libraries, as tests: each limit at its value and one above.
#![tactic(auto)]

#[cfg(test)]
mod areas;
#[cfg(test)]
mod chain;
#[cfg(test)]
mod charts;
#[cfg(test)]
mod checks;
#[cfg(test)]
mod files;
#[cfg(test)]
mod instants;
#[cfg(test)]
mod lines;
#[cfg(test)]
mod reach;
#[cfg(test)]
mod reactions;
#[cfg(test)]
mod views;
#[cfg(test)]
mod worklists;

use std::io;

fn main(rt: HostRuntime) -> io::Result<()> {
    println!(rt; "every limit is run at its value and one above by the tests of this crate")
}
