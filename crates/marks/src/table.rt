// The token table: the marks of a row of tokens over one text.
ghost use Rattle.std.specs.Prelude.{◌≡◌, ◌<◌, ◌≤◌, length};
ghost use Rattle.marks.specs.Texts.{readable};

use crate::part::Part;
use crate::token::Token;

pub mod walk;

#[derive(Drop)]
pub struct TokenTable<'a> {
    text: &'a [u8],
    // none where the text is too long
    tokens: &'a [Token],
    // the token that is opened next; an index and no iterator, since a fault names it
    index: usize,
    // what is left of the token opened last
    part: Part,
    ghost stops: { 60000 < length text.now → length tokens.now ≡ 0 },
    ghost within: { part.end ≤ readable (length text.now) },
}
