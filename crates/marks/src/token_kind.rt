// What the number of a token's kind stands for.
ghost use Rattle.std.specs.Prelude.{◌≡◌};
ghost use Rattle.marks.specs.Parts.{kind_of};

use crate::fault::Ground;
use crate::part::PartKind;
use crate::token::{BLANKS, ENCODED_WORD, RAW_LINE_END, TEXT};

#[derive(Clone, Copy)]
pub enum TokenKind {
    Part(PartKind),
    RawLineEnd,
}

impl TryFrom<u32> for TokenKind {
    type Error = Ground;

    ghost try_from_gives = { λ n r. r ≡ kind_of n };

    fn try_from(number: u32) -> Result<TokenKind, Ground> {
        match number {
            TEXT => Ok(TokenKind::Part(PartKind::Text)),
            BLANKS => Ok(TokenKind::Part(PartKind::Blanks)),
            RAW_LINE_END => Ok(TokenKind::RawLineEnd),
            ENCODED_WORD => Ok(TokenKind::Part(PartKind::Word)),
            _ => Err(Ground::UnknownKind),
        }
    }
}
