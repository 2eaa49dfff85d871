// Removals. Each answers whether the part is there, and closes the gap that it leaves, in place.
ghost use Rattle.std.specs.Prelude.{◌≡◌, is_some, if◌then◌else◌};
ghost use Rattle.std.specs.List.{remove, slice_get};
ghost use Rattle.store.specs.Edits.{member_at, parted_at};
ghost use Rattle.store.specs.Stored.{stored};

use crate::place::Place;
use crate::store::Store;

// A bool, as a set's `remove` answers it: only the place can be wrong, so there is no more to tell.
impl Store {
    // Removes an entry. A group goes with its members.
    pub fn remove_entry(&mut self, entry: usize) -> bool
        ensures there { result ≡ is_some (slice_get (stored self.old) entry) }
        ensures after { stored self.new ≡ (if result then remove (stored self.old) entry else stored self.old) }
    {
        let Some(&gone) = self.entries.as_slice().get(entry) else {
            return false;
        };
        let start = self.place(entry);
        let end = self.place(entry + 1);
        self.rows.cut(start, end);
        self.entries.remove(entry);
        self.groups -= gone.group_count();
        true
    }

    // Removes a member of a group. The group stays, also without members.
    pub fn remove_member(&mut self, entry: usize, member: usize) -> bool
        ensures there { result ≡ is_some (member_at (stored self.old) entry member) }
        ensures after { stored self.new ≡ (if result then parted_at (stored self.old) entry member else stored self.old) }
    {
        let Some(at) = self.member_place(entry, member) else {
            return false;
        };
        let size = self.rows.mailboxes.as_slice()[at.mailboxes].size();
        let end = Place {
            mailboxes: at.mailboxes + 1,
            chars: at.chars + size,
        };
        self.rows.cut(at, end);
        let group = self.entries.as_slice()[entry].one_less();
        self.entries.replace(entry, group);
        true
    }
}
