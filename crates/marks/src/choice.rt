// One of two sources is a source. Nested, it is one of many.
ghost use Rattle.marks.specs.Choice.{by, by_proper};

use crate::fault::Fault;
use crate::mark::Mark;
use crate::source::Source;
use either::{Either, Left, Right};

impl<L: Source, R: Source> Source for Either<L, R> {
    ghost waiting = { by L.Source.waiting R.Source.waiting };

    ghost close = { by L.Source.close R.Source.close };

    ghost proper = { by_proper L.Source.waiting R.Source.waiting L.Source.proper R.Source.proper };

    fn next(&mut self) -> Result<Option<Mark>, Fault> {
        match self {
            Left(source) => source.next(),
            Right(source) => source.next(),
        }
    }
}
