// What a store keeps of a mailbox and of an entry: lengths, in characters and in members.
ghost use Rattle.std.specs.Prelude.{◌≡◌, ◌≤◌};
ghost use Rattle.addresses.specs.Lent.{lent};
ghost use Rattle.store.specs.Layout.{mailbox_record, record_size, title_size, box_count, group_count, one_more, one_less};
ghost use Rattle.store.specs.Looks.{kind_is};

use crate::look::EntryKind;
use addresses::name_addr::NameAddr;

// `name` is None where there is no display name; one that is there may be empty.
#[derive(Clone, Copy)]
pub struct MailboxRecord {
    pub name: Option<usize>,
    pub addr: usize,
}

#[derive(Clone, Copy)]
pub enum EntryRecord {
    Loose,
    Group { name: usize, members: usize },
}

impl From<NameAddr<'_, u32>> for MailboxRecord {
    ghost from_gives = { λ m r. r ≡ mailbox_record (lent m) };

    fn from(mailbox: NameAddr<'_, u32>) -> MailboxRecord {
        MailboxRecord {
            name: mailbox.name.map(|name| name.len()),
            addr: mailbox.addr.len(),
        }
    }
}

impl From<EntryRecord> for EntryKind {
    ghost from_gives = { λ e k. k ≡ kind_is e };

    fn from(record: EntryRecord) -> EntryKind {
        match record {
            EntryRecord::Loose => EntryKind::Mailbox,
            EntryRecord::Group { .. } => EntryKind::Group,
        }
    }
}

impl MailboxRecord {
    // How many characters the mailbox has.
    pub fn size(self) -> usize
        requires { record_size self ≤ 8192 }
        ensures { result ≡ record_size self }
    {
        self.name.unwrap_or(0) + self.addr
    }
}

impl EntryRecord {
    // How many characters the name of the group has, if the entry is one.
    pub fn title_size(self) -> usize
        ensures { result ≡ title_size self }
    {
        match self {
            EntryRecord::Loose => 0,
            EntryRecord::Group { name, .. } => name,
        }
    }

    // How many mailboxes the entry has.
    pub fn box_count(self) -> usize
        ensures { result ≡ box_count self }
    {
        match self {
            EntryRecord::Loose => 1,
            EntryRecord::Group { members, .. } => members,
        }
    }

    // 1 if the entry is a group.
    pub fn group_count(self) -> usize
        ensures { result ≡ group_count self }
    {
        match self {
            EntryRecord::Loose => 0,
            EntryRecord::Group { .. } => 1,
        }
    }

    // The record of a group with a member more.
    pub fn one_more(self) -> EntryRecord
        requires { box_count self ≤ 256 }
        ensures { result ≡ one_more self }
    {
        match self {
            EntryRecord::Loose => EntryRecord::Loose,
            EntryRecord::Group { name, members } => EntryRecord::Group {
                name,
                members: members + 1,
            },
        }
    }

    // The record of a group with a member less.
    pub fn one_less(self) -> EntryRecord
        requires { 1 ≤ box_count self }
        ensures { result ≡ one_less self }
    {
        match self {
            EntryRecord::Loose => EntryRecord::Loose,
            EntryRecord::Group { name, members } => EntryRecord::Group {
                name,
                members: members - 1,
            },
        }
    }
}
