// What the layer holds between two answers.
ghost use Rattle.marks.specs.Proper.{AllProper};
ghost use Rattle.blanks.specs.Given.{blanks};
ghost use Rattle.blanks.specs.Kept.{behind};

use crate::run::Run;
use crate::state::State;

mod give;

#[derive(Drop)]
pub struct Held {
    pub state: State,
    // how many marks the layer gave, as far as the place of a fault counts them
    pub given: u32,
    // the last field: a layer that has no run yet is then made and moved without the room for one
    pub run: Run,
    ghost white: { AllProper (blanks run) },
    ghost proper: { AllProper (behind state) },
}
