// Events and their answers in words, for a person to read.
use crate::answer::Answer;
use crate::event::{Addition, Event, Part};
use crate::quoted::QuotedBytes;
use crate::turn::Turn;
use addresses::name_addr::NameAddr;
use std::fmt;

impl<S> fmt::Display for Turn<'_, S> {
    fn fmt<W: fmt::Write>(&self, f: &mut fmt::Formatter<W>) -> fmt::Result {
        let event = self.event;
        match (event, self.answer) {
            (Event::Write, Ok(Answer::Number(n))) => write!(f, "{event}: {n} bytes"),
            (_, Ok(answer)) => write!(f, "{event}: {answer}"),
            (_, Err(fault)) => write!(f, "{event}: refused, {fault}"),
        }
    }
}

impl fmt::Display for Event<'_> {
    fn fmt<W: fmt::Write>(&self, f: &mut fmt::Formatter<W>) -> fmt::Result {
        match *self {
            Event::Read => write!(f, "read its source"),
            Event::ReadText(text) => write!(f, "read a text of {} bytes", text.len()),
            Event::Add(addition) => write!(f, "add {addition}"),
            Event::Remove(part) => write!(f, "remove {part}"),
            Event::Write => write!(f, "write"),
            Event::CountMailboxes => write!(f, "count mailboxes"),
            Event::CountEntries => write!(f, "count entries"),
            Event::Look(part) => write!(f, "look at {part}"),
        }
    }
}

impl fmt::Display for Addition<'_> {
    fn fmt<W: fmt::Write>(&self, f: &mut fmt::Formatter<W>) -> fmt::Result {
        match *self {
            Addition::Mailbox(mailbox) => write!(f, "a mailbox, {}", Mailbox(mailbox)),
            Addition::Group { name } => write!(f, "a group, name {}", QuotedBytes(name)),
            Addition::Member { entry, mailbox } => {
                write!(f, "a member to entry {entry}, {}", Mailbox(mailbox))
            }
        }
    }
}

#[derive(Clone, Copy)]
struct Mailbox<'a>(NameAddr<'a, u8>);

impl fmt::Display for Mailbox<'_> {
    fn fmt<W: fmt::Write>(&self, f: &mut fmt::Formatter<W>) -> fmt::Result {
        let addr = QuotedBytes(self.0.addr);
        match self.0.name {
            Some(name) => write!(f, "name {}, address {addr}", QuotedBytes(name)),
            None => write!(f, "no name, address {addr}"),
        }
    }
}

impl fmt::Display for Part {
    fn fmt<W: fmt::Write>(&self, f: &mut fmt::Formatter<W>) -> fmt::Result {
        if let Some(member) = self.member {
            write!(f, "member {member} of ")?;
        }
        write!(f, "entry {}", self.entry)
    }
}

impl fmt::Display for Answer {
    fn fmt<W: fmt::Write>(&self, f: &mut fmt::Formatter<W>) -> fmt::Result {
        match *self {
            Answer::Done => write!(f, "done"),
            Answer::Number(n) => write!(f, "{n}"),
            Answer::Mailbox { name, addr } => {
                match name {
                    Some(name) => write!(f, "a mailbox, its name of {name} characters")?,
                    None => write!(f, "a mailbox, no name")?,
                }
                write!(f, ", its address of {addr} characters")
            }
            Answer::Group { name, members } => {
                write!(
                    f,
                    "a group, its name of {name} characters, {members} members"
                )
            }
        }
    }
}
