// A list, and the page that it is written on.
use mailboxes::list::MailboxList;
use std::alloc::{AllocError, Global};

// No list's written text is longer.
const PAGE: usize = 35_008;

#[derive(Drop)]
pub struct Desk {
    pub list: MailboxList,
    pub page: Vec<u8>,
}

impl Desk {
    pub fn new(heap: Global) -> Result<Desk, AllocError> {
        let list = MailboxList::new(heap)?;
        let page = vec![in heap; 0; PAGE]?;
        Ok(Desk { list, page })
    }

    // What stands on the page, if so many bytes were written.
    pub fn text(&self, length: usize) -> &[u8] {
        let page = self.page.as_slice();
        &page[..length.min(page.len())]
    }
}
