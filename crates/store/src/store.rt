// The record itself. Its calls stand in the modules below.
ghost use Rattle.std.specs.Prelude.{length};
ghost use Rattle.store.specs.Layout.{Laid, Counted, Small};

use crate::records::EntryRecord;
use crate::rows::Rows;
use bounded::Bounded;

mod insertions;
mod limits;
mod looks;
mod making;
mod places;
mod pushes;
mod removals;
pub mod walk;

// each entry is a loose mailbox or a group
pub const MAX_ENTRIES: usize = 320;

// Records of lengths beside one shared row: all memory of a list is taken when it is made, and nothing allocates later.
// No Model: those who write a list need its limits, and each call that lends the list would have to promise them.
#[derive(Drop)]
pub struct Store {
    entries: Bounded<EntryRecord, MAX_ENTRIES>,
    rows: Rows,
    // how many of the entries are groups, so that a push need not count them
    groups: usize,
    ghost laid: { Laid entries rows.mailboxes rows.chars },
    ghost counted: { Counted entries rows.mailboxes rows.chars groups },
    ghost small: { Small (length rows.mailboxes) groups (length rows.chars) },
}
