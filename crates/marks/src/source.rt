// A source of marks: a finite row of marks that wait, and how it closes once none waits.
ghost use Rattle.std.specs.Prelude.{List};
ghost use Rattle.marks.specs.declared.mark.Mark.{Mark};
ghost use Rattle.marks.specs.Gives.{Close, Gives};
ghost use Rattle.marks.specs.Proper.{AllProper};

use crate::fault::Fault;
use crate::mark::Mark;

pub trait Source {
    ghost waiting: { Self → List Mark };

    ghost close: { Self → Close };

    // each mark that waits is proper: an implementation gives the proof
    ghost proper: { (s : Self) → AllProper (waiting s) };

    fn next(&mut self) -> Result<Option<Mark>, Fault>
        ensures { Gives (waiting self.old) (close self.old) result (waiting self.new) (close self.new) };
}
