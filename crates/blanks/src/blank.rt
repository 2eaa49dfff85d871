// Marks as the layer takes them: which of them stand in a run, and what they become. Functions and no `From`: a mark may stand
// in a run or not, and outside one it stays a mark.
ghost use Rattle.std.specs.Prelude.{◌≡◌};
ghost use Rattle.blanks.specs.Given.{flat as flat_of};
ghost use Rattle.blanks.specs.OneMark.{code as code_of, state_after};

use crate::state::State;
use marks::mark::Mark;

// The code point of the blank that the mark is in a run, if it may stand in one.
pub fn code(m: Mark) -> Option<u32>
    ensures { result ≡ code_of m }
{
    match m {
        Mark::Blank(c) => Some(c),
        Mark::LineEnd => Some(0x20),
        Mark::Char(_) | Mark::Word | Mark::WordChar(_) => None,
    }
}

// The mark outside a run, as it is given.
pub fn flat(m: Mark) -> Mark
    ensures { result ≡ flat_of m }
{
    match m {
        Mark::LineEnd => Mark::Blank(0x20),
        other => other,
    }
}

// Where the layer stands once it gave the mark.
pub fn state_after(m: Mark) -> State
    ensures { result ≡ state_after m }
{
    match m {
        Mark::Word | Mark::WordChar(_) => State::AfterWord,
        Mark::Char(_) | Mark::Blank(_) | Mark::LineEnd => State::Plain,
    }
}
