// How a list stands: what a row that counted and wrote it has answered, and the text that it wrote.
use crate::desk::Desk;
use life::answer::Answer;
use life::event::Event;
use life::turn::Turn;
use std::alloc::{AllocError, Global};

pub const COUNTING: &[Event<'static>] = &[Event::CountEntries, Event::CountMailboxes];

// The events whose answers `stand` takes.
pub const WEIGHING: &[Event<'static>] = &[Event::CountEntries, Event::CountMailboxes, Event::Write];

#[derive(Drop)]
pub struct Standing {
    entries: usize,
    mailboxes: usize,
    pub text: Vec<u8>,
}

// How the list stands after a row that ended with WEIGHING.
pub fn stand<S>(heap: Global, desk: &Desk, turns: &[Turn<'_, S>]) -> Result<Standing, AllocError> {
    let mut entries = 0;
    let mut mailboxes = 0;
    let mut bytes = 0;
    for turn in turns {
        if let Ok(Answer::Number(n)) = turn.answer {
            match turn.event {
                Event::CountEntries => entries = n,
                Event::CountMailboxes => mailboxes = n,
                Event::Write => bytes = n,
                _ => {}
            }
        }
    }
    let text = desk.text(bytes).to_vec(heap)?;
    Ok(Standing {
        entries,
        mailboxes,
        text,
    })
}

fn sameness(same: bool) -> &'static str {
    if same { "the same" } else { "NOT the same" }
}

// Says whether the list stands as it stood before.
pub fn compare(rt: &HostRuntime, before: &Standing, after: &Standing) -> anyhow::Result<()> {
    let bytes = sameness(before.text.as_slice() == after.text.as_slice());
    let entries = sameness(before.entries == after.entries);
    let mailboxes = sameness(before.mailboxes == after.mailboxes);
    println!(rt;
        "  so the bytes written are {bytes}, the number of entries is {entries}, and that of mailboxes is {mailboxes}"
    )?;
    Ok(())
}
