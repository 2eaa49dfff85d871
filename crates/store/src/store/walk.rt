// A walk through the list of a store, from the first entry to the last. Its calls stand in the module below.
ghost use Rattle.std.specs.Prelude.{◌≤◌, length};
ghost use Rattle.store.specs.Layout.{opened, Laid};

use crate::records::{EntryRecord, MailboxRecord};

mod steps;

#[derive(Drop)]
pub struct Walk<'a> {
    // what lies ahead
    entries: &'a [EntryRecord],
    mailboxes: &'a [MailboxRecord],
    chars: &'a [u32],
    // how many members of the group shown last
    members: usize,
    ghost laid: { Laid (opened members entries.now) mailboxes.now chars.now },
    ghost small: { length chars.now ≤ 8192 },
}
