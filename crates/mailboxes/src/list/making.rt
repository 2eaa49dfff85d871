// How a list is made. This is the one call that can meet want of memory: nothing allocates later.
ghost use Rattle.std.specs.Prelude.{◌≡◌, [], IfOk};
ghost use Rattle.mailboxes.specs.Listed.{listed};

use crate::list::MailboxList;
use additions::addend::Addend;
use reader::machine::Reader;
use std::alloc::{AllocError, Global};
use store::store::Store;

impl MailboxList {
    // Makes an empty list, with memory for the largest one and for every read and addition.
    #[tactic(auto, using(crate::proofs::Keeping::empty_fine))]
    pub fn new(heap: Global) -> Result<MailboxList, AllocError>
        ensures { IfOk result (λ l. listed l ≡ []) }
    {
        let store = Store::new(heap)?;
        Ok(MailboxList {
            store,
            reader: Reader::new(heap)?,
            addend: Addend::new(heap)?,
        })
    }
}
