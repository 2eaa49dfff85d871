// A turn of a row.
ghost use Rattle.std.specs.Prelude.{◌≡◌, Ok};
ghost use Rattle.life.specs.declared.answer.Answer.TheVariants.{Done};

use crate::answer::Answer;
use crate::event::Event;
use marks::fault::Fault;

// An event, the source that it reads if it is a read, and its answer once it was performed.
#[derive(Drop)]
pub struct Turn<'a, S> {
    pub event: Event<'a>,
    pub source: S,
    pub answer: Result<Answer, Fault>,
}

impl<'a, S> Turn<'a, S> {
    // The turn as it waits to be performed. Performing it puts another answer in the place of this one.
    pub fn new(event: Event<'a>, source: S) -> Turn<'a, S>
        ensures event { result.event ≡ event.entry }
        ensures source { result.source ≡ source }
        ensures answer { result.answer ≡ Ok Done }
    {
        Turn {
            event,
            source,
            answer: Ok(Answer::Done),
        }
    }
}
