// The blank layer over a source.
ghost use Rattle.std.specs.Prelude.{◌≡◌};
ghost use Rattle.blanks.specs.Given.{given, closed};
ghost use Rattle.blanks.specs.Runs.{RunsTreated};
ghost use Rattle.blanks.specs.Ahead.{waits, closes};
ghost use Rattle.blanks.specs.Keeps.{ahead_proper};

use crate::held::Held;
use crate::state::State;
use marks::fault::Fault;
use marks::mark::Mark;
use marks::source::Source;

mod steps;

#[derive(Drop)]
pub struct BlankLayer<S> {
    below: S,
    held: Held,
}

impl<S: Source> BlankLayer<S> {
    // The layer over `below`, from the mark on that stands next there.
    pub fn new(below: S) -> BlankLayer<S>
        ensures waits { waits result.held (S.waiting result.below) ≡ given (S.waiting below) }
        ensures close { closes result.held (S.waiting result.below) (S.close result.below) ≡ closed (S.waiting below) (S.close below) }
        ensures runs { RunsTreated }
    {
        BlankLayer {
            below,
            held: Held::none(),
        }
    }
}

impl<S: Source> Source for BlankLayer<S> {
    ghost waiting = { λ s. waits s.held (S.Source.waiting s.below) };

    ghost close = { λ s. closes s.held (S.Source.waiting s.below) (S.Source.close s.below) };

    ghost proper = { λ s. ahead_proper s.held (S.Source.waiting s.below) (S.Source.proper s.below) };

    // Every way returns by itself: as one expression the answer went through memory, and `give` written out here is quicker (both
    // measured).
    fn next(&mut self) -> Result<Option<Mark>, Fault> {
        match self.held.state {
            State::Plain => {}
            State::AfterWord => return self.after_word(),
            State::Holding { .. } => {
                if let Some(m) = self.held.give() {
                    return Ok(Some(m));
                }
            }
            State::Long => return Err(self.held.long_run()),
        }
        self.pass()
    }
}
