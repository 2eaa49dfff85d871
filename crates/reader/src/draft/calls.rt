// What may happen to a draft.
ghost use Rattle.std.specs.Prelude.{◌≡◌, false, [], ◌∷◌, ◌++◌, IfOk, if◌then◌else◌};
ghost use Rattle.std.specs.Result.{is_ok};
ghost use Rattle.addresses.specs.Lent.{lent};
ghost use Rattle.addresses.specs.Limits.{within};
ghost use Rattle.addresses.specs.Mailboxes.{group};
ghost use Rattle.addresses.specs.Steps.{outside, inside, whole, finished};
ghost use Rattle.store.specs.Stored.{stored};
ghost use Rattle.reader.specs.Drafts.{is_open};

use crate::draft::Draft;
use addresses::name_addr::NameAddr;
use bounded::Full;
use std::alloc::{AllocError, Global};
use std::mem;
use store::store::Store;

impl Draft {
    pub fn new(heap: Global) -> Result<Draft, AllocError>
        ensures { IfOk result (λ d. d ≡ outside []) }
    {
        Ok(Draft {
            store: Store::new(heap)?,
            grouped: false,
        })
    }

    pub fn clear(&mut self)
        ensures { self.new ≡ outside [] }
    {
        self.grouped = false;
        self.store.clear();
    }

    pub fn is_open(&self) -> bool
        ensures { result ≡ is_open self.now }
    {
        self.grouped
    }

    // Adds a mailbox, to the open group if there is one. Where a limit forbids it, nothing changes.
    pub fn finish(&mut self, mailbox: NameAddr<'_, u32>) -> Result<(), Full>
        ensures fits { is_ok result ≡ within (whole (finished (lent mailbox.entry) self.old)) }
        ensures after { self.new ≡ (if is_ok result then finished (lent mailbox.entry) self.old else self.old) }
    {
        if self.grouped {
            self.store.push_member(mailbox)
        } else {
            self.store.push_mailbox(mailbox)
        }
    }

    // Opens a group at the end, likewise.
    pub fn open_group(&mut self, name: &[u32]) -> Result<(), Full>
        requires { is_open self.old ≡ false }
        ensures fits { is_ok result ≡ within (whole self.old ++ group name.now [] ∷ []) }
        ensures after { self.new ≡ (if is_ok result then inside (whole self.old) name.now [] else self.old) }
    {
        self.store.push_group(name)?;
        self.grouped = true;
        Ok(())
    }

    pub fn close_group(&mut self)
        ensures { self.new ≡ outside (whole self.old) }
    {
        self.grouped = false;
    }

    // Hands the list over, and takes another in its place.
    pub fn trade(&mut self, other: &mut Store)
        ensures given { stored other.new ≡ whole self.old }
        ensures taken { self.new ≡ outside (stored other.old) }
    {
        self.grouped = false;
        mem::swap(&mut self.store, other);
    }
}
