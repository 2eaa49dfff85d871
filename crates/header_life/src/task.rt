// The task: a header from beginning to end, as text, then as tokens, then both in one row.
use crate::desk::Desk;
use crate::given::{CHANGES, DAMAGED, DECODED, HEADER, TOKENS};
use crate::row::Row;
use crate::standing::{COUNTING, Standing, WEIGHING, compare, stand};
use crate::tour::look_around;
use life::event::Event;
use std::str::from_utf8;

pub fn task(rt: &HostRuntime) -> anyhow::Result<()> {
    let mut desk = Desk::new(rt.alloc())?;
    as_text(rt, &mut desk)?;
    as_tokens(rt, &mut desk)?;
    side_by_side(rt, &mut desk)
}

fn as_text(rt: &HostRuntime, desk: &mut Desk) -> anyhow::Result<()> {
    println!(rt; "A header as text: {HEADER}")?;
    let mut row = Row::new(rt.alloc());
    row.read(HEADER.as_bytes())?;
    row.ask_all(COUNTING)?;
    row.tell(rt, desk)?;
    println!(rt; "Every entry, and every member:")?;
    look_around(rt, desk)?;
    let changed = change(rt, desk)?;
    read_back(rt, desk, &changed)?;
    read_damaged(rt, desk, &changed)
}

fn change(rt: &HostRuntime, desk: &mut Desk) -> anyhow::Result<Standing> {
    println!(rt; "Its holder changes the list:")?;
    let mut row = Row::new(rt.alloc());
    row.ask_all(CHANGES)?;
    row.ask_all(WEIGHING)?;
    row.tell(rt, desk)?;
    Ok(stand(rt.alloc(), desk, row.turns.as_slice())?)
}

// Reads the written text: the list that comes is the one that was written.
fn read_back(rt: &HostRuntime, desk: &mut Desk, before: &Standing) -> anyhow::Result<()> {
    println!(rt;
        "The written text is read again: {}",
        from_utf8(before.text.as_slice())?
    )?;
    let mut row = Row::new(rt.alloc());
    row.ask(Event::ReadText(before.text.as_slice()))?;
    row.ask_all(WEIGHING)?;
    row.tell(rt, desk)?;
    let after = stand(rt.alloc(), desk, row.turns.as_slice())?;
    compare(rt, before, &after)
}

// A refused read leaves the list as it stood.
fn read_damaged(rt: &HostRuntime, desk: &mut Desk, before: &Standing) -> anyhow::Result<()> {
    println!(rt; "A damaged header: {DAMAGED}")?;
    let mut row = Row::new(rt.alloc());
    row.read(DAMAGED.as_bytes())?;
    row.ask_all(WEIGHING)?;
    row.tell(rt, desk)?;
    let after = stand(rt.alloc(), desk, row.turns.as_slice())?;
    compare(rt, before, &after)
}

fn as_tokens(rt: &HostRuntime, desk: &mut Desk) -> anyhow::Result<()> {
    println!(rt;
        "A header as tokens, two encoded words and a folded line between them, under the blank layer:"
    )?;
    let mut row = Row::new(rt.alloc());
    row.read_tokens(DECODED.as_bytes(), TOKENS)?;
    row.ask_all(WEIGHING)?;
    row.tell(rt, desk)?;
    let read = stand(rt.alloc(), desk, row.turns.as_slice())?;
    look_around(rt, desk)?;
    read_back(rt, desk, &read)
}

fn side_by_side(rt: &HostRuntime, desk: &mut Desk) -> anyhow::Result<()> {
    println!(rt; "A row with sources of both kinds, a text and then tokens:")?;
    let mut row = Row::new(rt.alloc());
    row.read(HEADER.as_bytes())?;
    row.ask_all(WEIGHING)?;
    row.read_tokens(DECODED.as_bytes(), TOKENS)?;
    row.ask_all(WEIGHING)?;
    row.tell(rt, desk)
}
