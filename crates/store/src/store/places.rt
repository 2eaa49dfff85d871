// Where entries and members lie in the records and in the characters.
ghost use Rattle.std.specs.Prelude.{◌≡◌, ◌≤◌, length, take};
ghost use Rattle.std.specs.Option.{option_map};
ghost use Rattle.store.specs.Edits.{member_at};
ghost use Rattle.store.specs.Places.{extent, upto};
ghost use Rattle.store.specs.Stored.{stored};

use crate::measures::{count, group_at, titles, width};
use crate::place::Place;
use crate::store::Store;

impl Store {
    // Where the entry `i` begins.
    pub(super) fn place(&self, i: usize) -> Place
        requires { i ≤ length (stored self.now) }
        ensures { result ≡ extent (take i (stored self.now)) }
    {
        let before = &self.entries.as_slice()[..i];
        let mailboxes = count(before);
        let records = &self.rows.mailboxes.as_slice()[..mailboxes];
        Place {
            mailboxes,
            chars: titles(before) + width(records),
        }
    }

    // Where the member `j` of the entry `i` begins, if that is a group that has it.
    pub(super) fn member_place(&self, i: usize, j: usize) -> Option<Place>
        ensures { result ≡ option_map (λ _. extent (upto (stored self.now) i j)) (member_at (stored self.now) i j) }
    {
        let (title, members) = group_at(self.entries.as_slice(), i)?;
        if j >= members {
            return None;
        }
        let start = self.place(i);
        let mailboxes = start.mailboxes + j;
        let before = &self.rows.mailboxes.as_slice()[start.mailboxes..mailboxes];
        Some(Place {
            mailboxes,
            chars: start.chars + title + width(before),
        })
    }
}
