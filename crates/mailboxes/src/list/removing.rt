// Removals. The characters of what goes are free for use again.
ghost use Rattle.std.specs.Prelude.{◌≡◌, Some, None};
ghost use Rattle.addresses.specs.Outcomes.{ComesOut};
ghost use Rattle.addresses.specs.Removals.{removed};
ghost use Rattle.mailboxes.specs.Listed.{listed};

use crate::list::MailboxList;
use marks::fault::{Fault, Ground, Layer};

impl MailboxList {
    // Removes an entry, a group with its members, or, where a member is named, that member of it. The two
    // stay two parameters, as those who call have them.
    pub fn remove(&mut self, entry: usize, member: Option<usize>) -> Result<(), Fault>
        ensures { ComesOut (listed self.old) (removed (listed self.old) entry member) result (listed self.new) }
    {
        match member {
            Some(j) => self.remove_member(entry, j),
            None => self.remove_entry(entry),
        }
    }

    fn remove_entry(&mut self, entry: usize) -> Result<(), Fault>
        ensures { ComesOut (listed self.old) (removed (listed self.old) entry None) result (listed self.new) }
    {
        if self.store.remove_entry(entry) {
            Ok(())
        } else {
            Err(Layer::List.fault(Ground::NoSuchEntry, entry))
        }
    }

    fn remove_member(&mut self, entry: usize, member: usize) -> Result<(), Fault>
        ensures { ComesOut (listed self.old) (removed (listed self.old) entry (Some member)) result (listed self.new) }
    {
        self.find_group(entry)?;
        if self.store.remove_member(entry, member) {
            Ok(())
        } else {
            Err(Layer::List.fault(Ground::NoSuchMember, member))
        }
    }
}
