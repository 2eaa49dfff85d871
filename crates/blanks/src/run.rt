// A run as it is held: the code points of its blanks, at most 1,000.
ghost use Rattle.std.specs.Prelude.{◌≡◌, ◌≤◌, [], ◌∷◌, length, slice_get};
ghost use Rattle.blanks.specs.Kept.{Pushed};
ghost use Rattle.blanks.specs.OneMark.{before as before_mark};

use arrayvec::ArrayVec;
use marks::mark::Mark;
use std::marker::Model;

// How many marks a run may have.
const LIMIT: usize = 1000;

// A run has more marks than that.
#[derive(Clone, Copy, Debug, PartialEq, Eq)]
pub struct TooLong;

#[derive(Drop)]
pub struct Run {
    // made at the first run: a layer that meets none writes nothing of it
    points: Option<ArrayVec<u32, LIMIT>>,
}

impl Model for Run {
    ghost use Rattle.std.specs.Prelude.{List, ℕ};
    ghost use Rattle.blanks.specs.Kept.{codes};

    ghost Value = { List ℕ };

    ghost view = { λ r. codes r.points };
}

impl Run {
    // No run, and no room for one yet.
    pub fn none() -> Run
        ensures { result ≡ [] }
    {
        Run { points: None }
    }

    // Forgets the run before, and begins one with this blank.
    pub fn begin(&mut self, first: u32)
        ensures { self.new ≡ first ∷ [] }
    {
        let points = self.points.get_or_insert_with(ArrayVec::new);
        points.clear();
        points.push(first);
    }

    // Holds a blank more, if there is room.
    pub fn push(&mut self, c: u32) -> Result<(), TooLong>
        ensures { Pushed self.old c result self.new }
    {
        let points = self.points.get_or_insert_with(ArrayVec::new);
        points.try_push(c).map_err(|_| TooLong)
    }

    // A run before a Word is dropped.
    pub fn end_before(&mut self, m: Mark)
        ensures { self.new ≡ before_mark m self.old }
    {
        if let Mark::Word = m {
            if let Some(points) = &mut self.points {
                points.clear();
            }
        }
    }

    // The blank at `i`.
    pub fn get(&self, i: usize) -> Option<u32>
        ensures blank { result ≡ slice_get self.now i }
        ensures within { length self.now ≤ 1000 }
    {
        self.points.as_ref()?.get(i).copied()
    }
}
