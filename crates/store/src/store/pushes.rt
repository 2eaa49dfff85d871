// Additions at the end of the list. A list that would not keep the limits with it stays as it was.
ghost use Rattle.std.specs.Prelude.{◌≡◌, ◌&&◌, [], ◌∷◌, ◌++◌, if◌then◌else◌};
ghost use Rattle.std.specs.Result.{is_ok};
ghost use Rattle.addresses.specs.Lent.{lent};
ghost use Rattle.addresses.specs.Mailboxes.{loose, group};
ghost use Rattle.addresses.specs.Limits.{within};
ghost use Rattle.store.specs.Stored.{stored};
ghost use Rattle.store.specs.Edits.{ends_in_group, last_joined};

use crate::measures::group_at;
use crate::records::EntryRecord;
use crate::store::Store;
use addresses::name_addr::NameAddr;
use bounded::Full;

impl Store {
    pub fn push_mailbox(&mut self, mailbox: NameAddr<'_, u32>) -> Result<(), Full>
        ensures fits { is_ok result ≡ within (stored self.old ++ loose (lent mailbox.entry) ∷ []) }
        ensures after { stored self.new ≡ (if is_ok result then stored self.old ++ loose (lent mailbox.entry) ∷ [] else stored self.old) }
    {
        self.room_for_mailbox(mailbox)?;
        self.rows.append(mailbox);
        // there is room: each entry is a mailbox or a group at least, and there are no more of these than may be
        self.entries.push(EntryRecord::Loose).unwrap();
        Ok(())
    }

    pub fn push_group(&mut self, name: &[u32]) -> Result<(), Full>
        ensures fits { is_ok result ≡ within (stored self.old ++ group name.now [] ∷ []) }
        ensures after { stored self.new ≡ (if is_ok result then stored self.old ++ group name.now [] ∷ [] else stored self.old) }
    {
        self.room_for_group(name)?;
        // there is room for both, as for a mailbox
        self.rows.chars.extend(name).unwrap();
        self.entries
            .push(EntryRecord::Group {
                name: name.len(),
                members: 0,
            })
            .unwrap();
        self.groups += 1;
        Ok(())
    }

    // Adds a member at the end of the last entry, if that is a group.
    // It is not `insert_member` of the last entry: that adds up all that lies before.
    pub fn push_member(&mut self, mailbox: NameAddr<'_, u32>) -> Result<(), Full>
        ensures fits { is_ok result ≡ (ends_in_group (stored self.old) && within (last_joined (stored self.old) (lent mailbox.entry))) }
        ensures after { stored self.new ≡ (if is_ok result then last_joined (stored self.old) (lent mailbox.entry) else stored self.old) }
    {
        let last = self.entries.len().saturating_sub(1);
        let (name, members) = group_at(self.entries.as_slice(), last).ok_or(Full)?;
        self.room_for_mailbox(mailbox)?;
        self.rows.append(mailbox);
        let group = EntryRecord::Group { name, members };
        self.entries.replace(last, group.one_more());
        Ok(())
    }
}
