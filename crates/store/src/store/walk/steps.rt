// How a walk is begun, and what it shows, one mailbox or group after the other.
ghost use Rattle.std.specs.Prelude.{◌≡◌, ◌<◌};
ghost use Rattle.std.specs.Iterator.{YieldsFirstBy, item_count};
ghost use Rattle.store.specs.Looks.{seen};
ghost use Rattle.store.specs.Stored.{stored};
ghost use Rattle.store.specs.Walks.{walked, ahead};

use crate::look::Look;
use crate::parts::mailbox_part;
use crate::records::EntryRecord;
use crate::store::Store;
use crate::store::walk::Walk;

impl Store {
    pub fn walk(&self) -> Walk<'_>
        ensures { ahead result ≡ walked (stored self.now) }
    {
        Walk {
            entries: self.entries.as_slice(),
            mailboxes: self.rows.mailboxes.as_slice(),
            chars: self.rows.chars.as_slice(),
            members: 0,
        }
    }
}

impl<'a> Walk<'a> {
    // Shows the next member of the open group.
    fn take_member(&mut self) -> Option<Look<'a>>
        requires { 0 < self.old.members }
        ensures { YieldsFirstBy seen ahead self.old result self.new }
    {
        let (lengths, others) = self.mailboxes.split_first()?;
        let all = self.chars;
        self.mailboxes = others;
        self.chars = &all[lengths.size()..];
        self.members -= 1;
        Some(Look::Mailbox(mailbox_part(*lengths, all, 0)))
    }
}

impl<'a> Iterator for Walk<'a> {
    type Item = Look<'a>;

    ghost next_gives = { YieldsFirstBy seen ahead };

    ghost remaining = { item_count ahead };

    // Shows the next mailbox or group. A group's members follow it.
    fn next(&mut self) -> Option<Look<'a>> {
        if self.members > 0 {
            return self.take_member();
        }
        let (entry, others) = self.entries.split_first()?;
        self.entries = others;
        match *entry {
            EntryRecord::Loose => {
                self.members = 1;
                self.take_member()
            }
            EntryRecord::Group { name, members } => {
                let (name, behind) = self.chars.split_at(name);
                self.chars = behind;
                self.members = members;
                Some(Look::Group { name, members })
            }
        }
    }
}
