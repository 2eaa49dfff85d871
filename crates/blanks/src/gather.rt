// Reads a run from the source below.
ghost use Rattle.std.specs.Prelude.{◌≡◌, true, [], ◌∷◌};
ghost use Rattle.marks.specs.Proper.{AllProper};
ghost use Rattle.marks.specs.declared.mark.Mark.TheVariants.{Blank};
ghost use Rattle.blanks.specs.Given.{inside, blanks, giving};
ghost use Rattle.blanks.specs.Ahead.{gathered, behind_of};
ghost use Rattle.characters.specs.WhiteSpace.{white};

use crate::blank::code;
use crate::run::{Run, TooLong};
use marks::mark::Mark;
use marks::source::Source;

// Reads the run that begins with the blank `first`, which was read already. The answer is the mark that stands behind it,
// or none where the source below closes: that close is asked for again once the run is given.
pub(crate) fn gather<S: Source>(
    below: &mut S,
    run: &mut Run,
    first: u32,
) -> Result<Option<Mark>, TooLong>
    requires { white first ≡ true }
    ensures given { giving (inside []) (Blank first ∷ S.waiting below.old) ≡ gathered result run.new (S.waiting below.new) }
    ensures proper { AllProper (blanks run.new) × AllProper (behind_of result) }
    ensures close { S.close below.new ≡ S.close below.old }
{
    run.begin(first);
    while let Ok(Some(m)) = below.next() {
        let Some(c) = code(m) else {
            run.end_before(m);
            return Ok(Some(m));
        };
        run.push(c)?;
    }
    Ok(None)
}
