// What a holder asks of a list.

use addresses::name_addr::NameAddr;

#[derive(Clone, Copy)]
pub enum Addition<'a> {
    Mailbox(NameAddr<'a, u8>),
    Group {
        name: &'a [u8],
    },
    Member {
        entry: usize,
        mailbox: NameAddr<'a, u8>,
    },
}

// An entry, or a member of it.
#[derive(Clone, Copy)]
pub struct Part {
    pub entry: usize,
    pub member: Option<usize>,
}

#[derive(Clone, Copy)]
pub enum Event<'a> {
    // reads the source that stands beside the event
    Read,
    ReadText(&'a [u8]),
    Add(Addition<'a>),
    Remove(Part),
    Write,
    CountMailboxes,
    CountEntries,
    Look(Part),
}
