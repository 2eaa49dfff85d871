// Edits at the end.
ghost use Rattle.std.specs.Prelude.{◌≡◌, [], ◌∷◌, ◌++◌, take, if◌then◌else◌};
ghost use Rattle.std.specs.Result.{is_ok};
ghost use Rattle.bounded.specs.Room.{fits};

use crate::{Bounded, Full};

impl<T: Copy, const N: usize> Bounded<T, N> {
    // Puts `x` at the end, if there is room for it.
    pub fn push(&mut self, x: T) -> Result<(), Full>
        ensures room { is_ok result ≡ fits N (self.old ++ x ∷ []) }
        ensures after { self.new ≡ (if is_ok result then self.old ++ x ∷ [] else self.old) }
    {
        if self.items.len() >= N {
            return Err(Full);
        }
        self.items.push_reserved(x);
        Ok(())
    }

    // Puts all of `more` at the end, if there is room for it.
    pub fn extend(&mut self, more: &[T]) -> Result<(), Full>
        ensures room { is_ok result ≡ fits N (self.old ++ more.now) }
        ensures after { self.new ≡ (if is_ok result then self.old ++ more.now else self.old) }
    {
        if more.len() > N - self.items.len() {
            return Err(Full);
        }
        // there is room, so that nothing is asked of the heap
        self.items.extend_from_slice(more).unwrap();
        Ok(())
    }

    // Keeps the first `len` elements.
    pub fn truncate(&mut self, len: usize)
        ensures { self.new ≡ take len self.old }
    {
        self.items.truncate(len);
    }
}
