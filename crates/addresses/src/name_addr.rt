// A mailbox as it is lent to a call.

// The address, and the display name where there is one: rows of code points, or of bytes that are not decoded yet.
#[derive(Clone, Copy)]
pub struct NameAddr<'a, C> {
    pub name: Option<&'a [C]>,
    pub addr: &'a [C],
}
