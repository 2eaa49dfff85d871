// A list whose memory is taken once. It never holds more elements than it was made for.
#![tactic(auto)]

use std::marker::Model;

mod ends;
mod making;
mod middle;

// At most `N` elements, seen as the list of them.
#[derive(Drop)]
pub struct Bounded<T, const N: usize> {
    items: Vec<T>,
}

impl<T, const N: usize> Model for Bounded<T, N> {
    ghost use Rattle.std.specs.Prelude.{◌≤◌, List, length, vec_capacity};

    ghost Value = { List T };

    ghost view = { λ b. b.items.items };

    ghost invariant = { λ b. (N ≤ vec_capacity b.items) × (length b.items.items ≤ N) };
}

// There is no room for so much more.
#[derive(Clone, Copy, Debug, PartialEq, Eq)]
pub struct Full;

#[cfg(test)]
mod tests;
