// What is to be added to a list: a mailbox, or the name of a group.
ghost use Rattle.std.specs.Prelude.{◌≤◌, length};

use crate::row::Row;

mod judge;
mod take;

// The memory for both rows is taken when it is made; nothing allocates later.
#[derive(Drop)]
pub struct Addend {
    // of a mailbox that has no name, what is left of an earlier one
    name: Row,
    // a flag beside the row, for an Option without one would give its memory back
    named: bool,
    addr: Row,
    ghost few_name: { length name ≤ 2000 },
    ghost few_addr: { length addr ≤ 2000 },
}
