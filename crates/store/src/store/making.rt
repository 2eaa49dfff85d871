// How a store is made and emptied. All memory that a store ever has is taken in `new`.
ghost use Rattle.std.specs.Prelude.{◌≡◌, [], IfOk};
ghost use Rattle.store.specs.Stored.{stored};

use crate::rows::Rows;
use crate::store::Store;
use bounded::Bounded;
use std::alloc::{AllocError, Global};

impl Store {
    pub fn new(heap: Global) -> Result<Store, AllocError>
        ensures empty { IfOk result (λ s. stored s ≡ []) }
    {
        Ok(Store {
            entries: Bounded::new(heap)?,
            rows: Rows {
                mailboxes: Bounded::new(heap)?,
                chars: Bounded::new(heap)?,
            },
            groups: 0,
        })
    }

    pub fn clear(&mut self)
        ensures empty { stored self.new ≡ [] }
    {
        self.entries.clear();
        self.rows.mailboxes.clear();
        self.rows.chars.clear();
        self.groups = 0;
    }
}
