// An addition in the middle of the list.
ghost use Rattle.std.specs.Prelude.{◌≡◌, ◌&&◌, if◌then◌else◌};
ghost use Rattle.std.specs.Result.{is_ok};
ghost use Rattle.addresses.specs.Lent.{lent};
ghost use Rattle.addresses.specs.Limits.{within};
ghost use Rattle.store.specs.Edits.{has_group, joined_at};
ghost use Rattle.store.specs.Stored.{stored};

use crate::measures::group_at;
use crate::records::EntryRecord;
use crate::store::Store;
use addresses::name_addr::NameAddr;
use bounded::Full;

impl Store {
    // Adds a member at the end of the entry `entry`, if that is a group.
    pub fn insert_member(&mut self, entry: usize, mailbox: NameAddr<'_, u32>) -> Result<(), Full>
        ensures fits { is_ok result ≡ (has_group (stored self.old) entry && within (joined_at (stored self.old) entry (lent mailbox.entry))) }
        ensures after { stored self.new ≡ (if is_ok result then joined_at (stored self.old) entry (lent mailbox.entry) else stored self.old) }
    {
        let (name, members) = group_at(self.entries.as_slice(), entry).ok_or(Full)?;
        self.room_for_mailbox(mailbox)?;
        let end = self.place(entry + 1);
        self.rows.insert(end, mailbox);
        let group = EntryRecord::Group { name, members };
        self.entries.replace(entry, group.one_more());
        Ok(())
    }
}
