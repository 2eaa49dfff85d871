// A part of the text that a token names, as far as it is not read yet.
ghost use Rattle.std.specs.Prelude.{◌≡◌};
ghost use Rattle.marks.specs.Parts.{as_mark, lead as lead_of};

use crate::fault::{Fault, Ground, Layer};
use crate::mark::Mark;
use characters::is_white_space;

#[derive(Clone, Copy, Debug, PartialEq, Eq)]
pub enum PartKind {
    Text,
    Blanks,
    Word,
}

#[derive(Clone, Copy)]
pub struct Part {
    pub kind: PartKind,
    // the index of the token
    pub token: usize,
    // the byte that is read next, and the first behind the part
    pub at: usize,
    pub end: usize,
}

impl Part {
    // The mark that stands before the characters of the part.
    pub fn lead(self) -> Option<Mark>
        ensures { result ≡ lead_of self.kind }
    {
        match self.kind {
            PartKind::Text | PartKind::Blanks => None,
            PartKind::Word => Some(Mark::Word),
        }
    }

    // The mark that a character of the part gives.
    pub fn mark(self, c: u32) -> Result<Mark, Fault>
        ensures { result ≡ as_mark self.kind self.token c }
    {
        match self.kind {
            PartKind::Text => Ok(Mark::Char(c)),
            PartKind::Blanks if is_white_space(c) => Ok(Mark::Blank(c)),
            PartKind::Blanks => Err(Layer::Source.fault(Ground::NotBlank, self.token)),
            PartKind::Word => Ok(Mark::WordChar(c)),
        }
    }
}
