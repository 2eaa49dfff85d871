// Questions to a store. Names and addresses are answered as parts of its own characters.
ghost use Rattle.std.specs.Prelude.{◌≡◌, length, Some, None};
ghost use Rattle.std.specs.Option.{option_map};
ghost use Rattle.std.specs.List.{slice_get};
ghost use Rattle.addresses.specs.Mailboxes.{mailboxes as mailbox_count};
ghost use Rattle.store.specs.Looks.{look_at, seen, kind_of};
ghost use Rattle.store.specs.Stored.{stored};

use crate::look::{EntryKind, Look};
use crate::measures::count;
use crate::parts::mailbox_part;
use crate::records::EntryRecord;
use crate::store::Store;

impl Store {
    pub fn count_mailboxes(&self) -> usize
        ensures { result ≡ mailbox_count (stored self.now) }
    {
        count(self.entries.as_slice())
    }

    pub fn count_entries(&self) -> usize
        ensures { result ≡ length (stored self.now) }
    {
        self.entries.len()
    }

    pub fn kind(&self, entry: usize) -> Option<EntryKind>
        ensures { result ≡ option_map kind_of (slice_get (stored self.now) entry) }
    {
        self.entries
            .as_slice()
            .get(entry)
            .map(|record| EntryKind::from(*record))
    }

    fn look_entry(&self, entry: usize) -> Option<Look<'_>>
        ensures { option_map seen result ≡ look_at (stored self.now) entry None }
    {
        let record = *self.entries.as_slice().get(entry)?;
        let at = self.place(entry);
        let all = self.rows.chars.as_slice();
        match record {
            EntryRecord::Loose => {
                let lengths = self.rows.mailboxes.as_slice()[at.mailboxes];
                Some(Look::Mailbox(mailbox_part(lengths, all, at.chars)))
            }
            EntryRecord::Group { name, members } => Some(Look::Group {
                name: &all[at.chars..at.chars + name],
                members,
            }),
        }
    }

    // The lookup of `look_entry` again: a function for both would have to ask that the place lies in the rows.
    fn look_member(&self, entry: usize, member: usize) -> Option<Look<'_>>
        ensures { option_map seen result ≡ look_at (stored self.now) entry (Some member) }
    {
        let at = self.member_place(entry, member)?;
        let lengths = self.rows.mailboxes.as_slice()[at.mailboxes];
        let all = self.rows.chars.as_slice();
        Some(Look::Mailbox(mailbox_part(lengths, all, at.chars)))
    }

    // Looks at an entry, or, where a member is named, at that member of it.
    pub fn look(&self, entry: usize, member: Option<usize>) -> Option<Look<'_>>
        ensures { option_map seen result ≡ look_at (stored self.now) entry member }
    {
        match member {
            Some(j) => self.look_member(entry, j),
            None => self.look_entry(entry),
        }
    }
}
