// Names and addresses between quotes, for a person to read.
ghost use Rattle.std.specs.Iterator.{IsFinite};

use std::fmt;
use std::str::from_utf8;

// Shows a character. A quote or a backslash gets a backslash before it, and what a terminal would act upon goes by its
// code point.
fn sign<W: fmt::Write>(c: char, f: &mut fmt::Formatter<W>) -> fmt::Result {
    match c {
        '"' | '\\' => write!(f, "\\{c}"),
        '\0'..='\x1f' | '\x7f'..='\u{9f}' => write!(f, "\\u{{{:x}}}", u32::from(c)),
        _ => write!(f, "{c}"),
    }
}

fn between_quotes<W: fmt::Write, I: Iterator<Item = char>>(
    text: I,
    f: &mut fmt::Formatter<W>,
) -> fmt::Result
    requires can { I.can_next text }
    requires finite { IsFinite (I.remaining text) }
{
    write!(f, "\"")?;
    for c in text {
        sign(c, f)?;
    }
    write!(f, "\"")
}

// A row of characters.
#[derive(Clone, Copy)]
pub struct Quoted<'a>(pub &'a [u32]);

impl fmt::Display for Quoted<'_> {
    fn fmt<W: fmt::Write>(&self, f: &mut fmt::Formatter<W>) -> fmt::Result {
        between_quotes(self.0.iter().filter_map(|code| char::from_u32(*code)), f)
    }
}

// The same as bytes.
#[derive(Clone, Copy)]
pub struct QuotedBytes<'a>(pub &'a [u8]);

impl fmt::Display for QuotedBytes<'_> {
    fn fmt<W: fmt::Write>(&self, f: &mut fmt::Formatter<W>) -> fmt::Result {
        let Ok(text) = from_utf8(self.0) else {
            return write!(f, "bytes that are no UTF-8");
        };
        between_quotes(text.chars(), f)
    }
}
