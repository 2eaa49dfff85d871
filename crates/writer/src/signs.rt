// The signs that have a part in a written text.
ghost use Rattle.std.specs.Prelude.{◌≡◌, [], ◌∷◌};
ghost use Rattle.characters.specs.WhiteSpace.{among};
ghost use Rattle.addresses.specs.Signs.{quote, backslash};

pub(crate) const SPACE: u32 = ' ' as u32;

pub(crate) const QUOTE: u32 = '"' as u32;

pub(crate) const OPEN_PAREN: u32 = '(' as u32;

pub(crate) const COMMA: u32 = ',' as u32;

pub(crate) const COLON: u32 = ':' as u32;

pub(crate) const SEMICOLON: u32 = ';' as u32;

pub(crate) const OPEN_BRACKET: u32 = '<' as u32;

pub const CLOSE_BRACKET: u32 = '>' as u32;

pub const AT: u32 = '@' as u32;

pub(crate) const BACKSLASH: u32 = '\\' as u32;

// Inside quotes a backslash stands before `c`.
pub(crate) fn is_escaped(c: u32) -> bool
    ensures { result ≡ among c (backslash ∷ quote ∷ []) }
{
    matches!(c, BACKSLASH | QUOTE)
}
