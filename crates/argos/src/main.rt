// argos: checks chart files, shows them in words, and tells what they can reach.
#![tactic(auto)]

mod reach;
mod show;
mod words;

use crate::reach::tell_reach;
use crate::show::show;
use chart::view::Chart;
use std::process::ExitCode;
use std::str::FromStr;
use std::{env, fs};

// What is asked of a chart file.
#[derive(Clone, Copy, Debug, PartialEq, Eq)]
enum Command {
    Check,
    Show,
    Reach,
}

// A word that asks for nothing.
#[derive(Clone, Copy, Debug, PartialEq, Eq)]
struct NoCommand;

// The command that a word names.
impl FromStr for Command {
    type Err = NoCommand;

    fn from_str(word: &str) -> Result<Command, NoCommand> {
        match word {
            "check" => Ok(Command::Check),
            "show" => Ok(Command::Show),
            "reach" => Ok(Command::Reach),
            _ => Err(NoCommand),
        }
    }
}

// How the program is called; it ends with status 1.
fn usage(rt: &HostRuntime) -> anyhow::Result<ExitCode> {
    eprintln!(rt;
        "usage: argos check CHART     tells whether the file is a chart: ok, or its first fault"
    )?;
    eprintln!(rt; "       argos show CHART      prints the chart in words")?;
    eprintln!(rt;
        "       argos reach CHART     tells which signals can be present, and which states can be held"
    )?;
    Ok(ExitCode::FAILURE)
}

// Carries out a command on the bytes of a file; it ends with status 1 where they break a rule.
fn on_bytes(rt: &HostRuntime, command: Command, bytes: &[u8]) -> anyhow::Result<ExitCode> {
    let chart = match Chart::open(bytes) {
        Ok(chart) => chart,
        Err(fault) => {
            println!(rt; "{fault}")?;
            return Ok(ExitCode::FAILURE);
        }
    };
    match command {
        Command::Check => println!(rt; "ok")?,
        Command::Show => show(rt, chart)?,
        Command::Reach => tell_reach(rt, chart)?,
    }
    Ok(ExitCode::SUCCESS)
}

// Carries out a command on a file; it ends with status 1 where that cannot be read.
fn on_file(rt: &HostRuntime, command: Command, path: &str) -> anyhow::Result<ExitCode> {
    match fs::read(rt, path) {
        Ok(file) => on_bytes(rt, command, file.as_slice()),
        Err(e) => {
            eprintln!(rt; "argos: cannot read {path}: {e}")?;
            Ok(ExitCode::FAILURE)
        }
    }
}

fn main(rt: HostRuntime) -> anyhow::Result<ExitCode> {
    let words: Vec<String> = env::args(&rt)?.collect(rt.alloc())?;
    let [_, command, path] = words.as_slice() else {
        return usage(&rt);
    };
    match command.parse() {
        Ok(command) => on_file(&rt, command, path.as_str()),
        Err(NoCommand) => usage(&rt),
    }
}
