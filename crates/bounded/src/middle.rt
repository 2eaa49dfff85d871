// Edits at a place. A place may lie behind the end.
ghost use Rattle.std.specs.Prelude.{◌≡◌, ◌++◌, max, take, drop, slice_set, if◌then◌else◌};
ghost use Rattle.std.specs.List.{insert, insert_slice, remove, remove_range, slice_get};
ghost use Rattle.std.specs.Result.{is_ok};
ghost use Rattle.bounded.specs.Room.{fits};

use crate::{Bounded, Full};
use std::mem;

impl<T: Copy, const N: usize> Bounded<T, N> {
    // Puts `x` at the place `at` in place of the element there, which it answers. Where there is none, nothing changes.
    pub fn replace(&mut self, at: usize, x: T) -> Option<T>
        ensures was { result ≡ slice_get self.old at }
        ensures after { self.new ≡ slice_set self.old at x }
    {
        if at >= self.items.len() {
            return None;
        }
        Some(mem::replace(&mut self.items[at], x))
    }

    // Takes out the element at the place `at`. Where there is none, nothing changes.
    pub fn remove(&mut self, at: usize) -> Option<T>
        ensures was { result ≡ slice_get self.old at }
        ensures after { self.new ≡ remove self.old at }
    {
        if at >= self.items.len() {
            return None;
        }
        Some(self.items.remove(at))
    }

    // Puts all of `more` before the element at the place `at`, or at the end if there is none.
    pub fn insert_slice(&mut self, at: usize, more: &[T]) -> Result<(), Full>
        ensures room { is_ok result ≡ fits N (self.old ++ more.now) }
        ensures after { self.new ≡ (if is_ok result then insert_slice self.old at more.now else self.old) }
    {
        let end = self.items.len();
        // put at the end and turned to their place: `splice` may ask the heap
        self.extend(more)?;
        self.bring(at, end);
        Ok(())
    }

    // Puts what lies from the place `from` on before the element at the place `at`. If `at` is not before `from`, nothing changes.
    pub fn bring(&mut self, at: usize, from: usize)
        ensures { self.new ≡ insert_slice (take from self.old) at (drop from self.old) }
    {
        let from = from.min(self.items.len());
        let at = at.min(from);
        let all = self.items.as_mut_slice();
        let behind = &mut all[at..];
        behind.rotate_left(from - at);
    }

    // Takes out what lies between the places `start` and `end`.
    pub fn remove_range(&mut self, start: usize, end: usize)
        ensures { self.new ≡ remove_range self.old start (max start end) }
    {
        let len = self.items.len();
        let end = end.min(len);
        let start = start.min(end);
        self.items.copy_within(end..len, start);
        self.items.truncate(len - (end - start));
    }
}
