// Questions, which change nothing.
ghost use Rattle.std.specs.Prelude.{◌≡◌, length, Some, None};
ghost use Rattle.addresses.specs.Looks.{look as looking};
ghost use Rattle.addresses.specs.Mailboxes.{mailboxes};
ghost use Rattle.addresses.specs.Places.{group_at};
ghost use Rattle.mailboxes.specs.Answers.{settled, sight};
ghost use Rattle.mailboxes.specs.Listed.{listed};

use crate::list::MailboxList;
use marks::fault::{Fault, Ground, Layer};
use store::look::{EntryKind, Look};

impl MailboxList {
    // Refuses an entry that is no group.
    pub(super) fn find_group(&self, entry: usize) -> Result<(), Fault>
        ensures { result ≡ settled (group_at (listed self.now) entry) }
    {
        match self.store.kind(entry) {
            Some(EntryKind::Group) => Ok(()),
            Some(EntryKind::Mailbox) => Err(Layer::List.fault(Ground::NotAGroup, entry)),
            None => Err(Layer::List.fault(Ground::NoSuchEntry, entry)),
        }
    }

    fn look_entry(&self, entry: usize) -> Result<Look<'_>, Fault>
        ensures { sight result ≡ looking (listed self.now) entry None }
    {
        self.store
            .look(entry, None)
            .ok_or(Layer::List.fault(Ground::NoSuchEntry, entry))
    }

    fn look_member(&self, entry: usize, member: usize) -> Result<Look<'_>, Fault>
        ensures { sight result ≡ looking (listed self.now) entry (Some member) }
    {
        self.find_group(entry)?;
        self.store
            .look(entry, Some(member))
            .ok_or(Layer::List.fault(Ground::NoSuchMember, member))
    }

    // Looks at an entry, or, where a member is named, at that member of it. Names and addresses are parts of the
    // list's own characters. An entry and a member stay two parameters, as those who call have them.
    pub fn look(&self, entry: usize, member: Option<usize>) -> Result<Look<'_>, Fault>
        ensures { sight result ≡ looking (listed self.now) entry member }
    {
        match member {
            Some(j) => self.look_member(entry, j),
            None => self.look_entry(entry),
        }
    }

    pub fn count_mailboxes(&self) -> usize
        ensures { result ≡ mailboxes (listed self.now) }
    {
        self.store.count_mailboxes()
    }

    pub fn count_entries(&self) -> usize
        ensures { result ≡ length (listed self.now) }
    {
        self.store.count_entries()
    }
}
