// Where an entry or a member lies in the rows of a list.

// So many records of mailboxes and so many characters stand before its own.
#[derive(Clone, Copy)]
pub struct Place {
    pub mailboxes: usize,
    pub chars: usize,
}
