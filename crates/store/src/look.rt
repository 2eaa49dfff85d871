// What a look at a list shows.
use addresses::name_addr::NameAddr;

// Parts of the store's own characters.
#[derive(Clone, Copy)]
pub enum Look<'a> {
    Mailbox(NameAddr<'a, u32>),
    Group { name: &'a [u32], members: usize },
}

#[derive(Clone, Copy)]
pub enum EntryKind {
    Mailbox,
    Group,
}
