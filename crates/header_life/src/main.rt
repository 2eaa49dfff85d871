// Address headers from the command line. With no argument one header is walked from beginning to end.
#![tactic(auto)]

use anyhow::anyhow;
use std::env;

mod desk;
mod entries;
mod given;
mod json;
mod lines;
mod looking;
mod row;
mod show;
mod standing;
mod task;
mod tell;
mod tour;

const HELP: &str = "usage:
  nukorihe             walks one header through a list: read, looked at, changed, written, read again
  nukorihe read TEXT   prints the mailboxes and groups of a header's value
  nukorihe lines       answers each line of standard input, a header's value, by a line of JSON
  nukorihe marks TEXT  prints the marks that a text gives
";

fn main(rt: HostRuntime) -> anyhow::Result<()> {
    run(&rt)
}

fn run(rt: &HostRuntime) -> anyhow::Result<()> {
    let mut words = env::args(rt)?.skip(1);
    let Some(command) = words.next() else {
        return task::task(rt);
    };
    let text = words.next();
    if words.next().is_some() {
        return help(rt);
    }
    match text {
        Some(text) => with_text(rt, command.as_str(), text.as_bytes()),
        None => alone(rt, command.as_str()),
    }
}

// Two commands with a text, and one without: a table of functions would be longer.
fn with_text(rt: &HostRuntime, command: &str, text: &[u8]) -> anyhow::Result<()> {
    match command {
        "read" => entries::read(rt, text),
        "marks" => show::text(rt, text),
        _ => help(rt),
    }
}

fn alone(rt: &HostRuntime, command: &str) -> anyhow::Result<()> {
    match command {
        "lines" => lines::lines(rt),
        _ => help(rt),
    }
}

fn help(rt: &HostRuntime) -> anyhow::Result<()> {
    eprint!(rt; "{HELP}")?;
    Err(anyhow!("unknown command"))
}
