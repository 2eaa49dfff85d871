// What a token opens as, with the checks of its three numbers in their order.
ghost use Rattle.std.specs.Prelude.{◌≡◌, length as length_of};
ghost use Rattle.marks.specs.Parts.{part_of, opened as opened_as};

use crate::fault::{Fault, Ground, Layer};
use crate::part::{Part, PartKind};
use crate::token::Token;
use crate::token_kind::TokenKind;

// The part of the token, if it lies inside the text and is not empty where it is to hold blanks.
fn part_of(text: &[u8], kind: PartKind, token: Token, index: usize) -> Result<Part, Fault>
    ensures { result ≡ part_of (length_of text.now) kind token index }
{
    let end = token
        .start
        .checked_add(token.length)
        .filter(|end| *end <= text.len())
        .ok_or(Layer::Source.fault(Ground::PartOutsideText, index))?;
    if kind == PartKind::Blanks && token.length == 0 {
        return Err(Layer::Source.fault(Ground::NotBlank, index));
    }
    Ok(Part {
        kind,
        token: index,
        at: token.start,
        end,
    })
}

// The part that the token opens. A raw line end opens none.
pub fn open_token(text: &[u8], token: Token, index: usize) -> Result<Option<Part>, Fault>
    ensures { result ≡ opened_as (length_of text.now) token index }
{
    let kind = TokenKind::try_from(token.kind).map_err(|ground| Layer::Source.fault(
        ground, index,
    ))?;
    match kind {
        TokenKind::Part(kind) => part_of(text, kind, token, index).map(Some),
        TokenKind::RawLineEnd => Ok(None),
    }
}
