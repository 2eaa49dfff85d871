// What rows of records add up to. A sum is asked for only where the limits keep it small.
ghost use Rattle.std.specs.Prelude.{◌≡◌, ◌≤◌, sum_by};
ghost use Rattle.std.specs.List.{slice_get};
ghost use Rattle.store.specs.Layout.{record_size, title_size, box_count, group_of};

use crate::records::{EntryRecord, MailboxRecord};

// Three sums, and no one over a closure: each is of records of its own, under a bound of its own.
pub fn width(mailboxes: &[MailboxRecord]) -> usize
    requires { sum_by record_size mailboxes.now ≤ 8192 }
    ensures { result ≡ sum_by record_size mailboxes.now }
{
    mailboxes.iter().map(|mailbox| mailbox.size()).sum()
}

pub fn titles(entries: &[EntryRecord]) -> usize
    requires { sum_by title_size entries.now ≤ 8192 }
    ensures { result ≡ sum_by title_size entries.now }
{
    entries.iter().map(|entry| entry.title_size()).sum()
}

pub fn count(entries: &[EntryRecord]) -> usize
    requires { sum_by box_count entries.now ≤ 256 }
    ensures { result ≡ sum_by box_count entries.now }
{
    entries.iter().map(|entry| entry.box_count()).sum()
}

// The length of the name and the number of members of the entry `i`, if it is a group.
pub fn group_at(entries: &[EntryRecord], i: usize) -> Option<(usize, usize)>
    ensures { result ≡ group_of (slice_get entries.now i) }
{
    match *entries.get(i)? {
        EntryRecord::Loose => None,
        EntryRecord::Group { name, members } => Some((name, members)),
    }
}
