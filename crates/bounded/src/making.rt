// How such a list is made, emptied and read.
ghost use Rattle.std.specs.Prelude.{◌≡◌, ◌≤◌, [], length, IfOk};

use crate::Bounded;
use std::alloc::{AllocError, Global};

impl<T: Copy, const N: usize> Bounded<T, N> {
    // Takes all the memory that the list ever has.
    pub fn new(heap: Global) -> Result<Self, AllocError>
        ensures { IfOk result (λ v. v ≡ []) }
    {
        Ok(Bounded {
            items: Vec::with_capacity(heap, N)?,
        })
    }

    pub fn clear(&mut self)
        ensures { self.new ≡ [] }
    {
        self.items.clear();
    }

    pub fn len(&self) -> usize
        ensures value { result ≡ length self.now }
        ensures at_most { result ≤ N }
    {
        self.items.len()
    }

    pub fn as_slice(&self) -> &[T]
        ensures value { result.now ≡ self.now }
        ensures at_most { length result.now ≤ N }
    {
        self.items.as_slice()
    }
}
