// Walks address headers through their sources, and prints each mark in words, their number and the close.
#![tactic(auto)]

use anyhow::anyhow;
use marks::text::TextSource;
use std::env;

mod show;
mod task;

fn main(rt: HostRuntime) -> anyhow::Result<()> {
    run(&rt)
}

fn run(rt: &HostRuntime) -> anyhow::Result<()> {
    let mut words = env::args(rt)?.skip(1);
    let Some(command) = words.next() else {
        return task::task(rt);
    };
    match words.next() {
        Some(text) if command.as_str() == "marks" && words.next().is_none() => {
            show::source(rt, "The text", TextSource::new(text.as_bytes()))
        }
        _ => {
            eprintln!(rt; "usage: nukorihe [marks TEXT]")?;
            Err(anyhow!("unknown command"))
        }
    }
}
