// Faults and marks in words, for a person to read.
use crate::collect::Collected;
use crate::fault::{Fault, Ground, Layer};
use crate::mark::Mark;
use characters::is_white_space;
use std::fmt;

impl fmt::Display for Layer {
    fn fmt<W: fmt::Write>(&self, f: &mut fmt::Formatter<W>) -> fmt::Result {
        f.write_str(match self {
            Layer::Source => "source",
            Layer::Blanks => "blank layer",
            Layer::Reader => "reader",
            Layer::List => "list",
        })
    }
}

impl fmt::Display for Ground {
    fn fmt<W: fmt::Write>(&self, f: &mut fmt::Formatter<W>) -> fmt::Result {
        f.write_str(match self {
            Ground::AddressWithoutAt => "an address without @",
            Ground::StraySemicolon => "a semicolon outside a group",
            Ground::NestedGroup => "a group inside a group",
            Ground::UnclosedGroup => "a group that is not closed",
            Ground::WordAfterBackslash => "an encoded word after a backslash",
            Ground::WordInBrackets => "an encoded word inside brackets",
            Ground::WordAfterBrackets => "an encoded word after brackets",
            Ground::CharAfterBrackets => "a character that may not follow brackets",
            Ground::UnfinishedEntry => "an entry that is not finished",
            Ground::DeepComment => "a comment nested more than 100 deep",
            Ground::LongName => "a name above 2000 characters",
            Ground::LongAddress => "an address above 2000 characters",
            Ground::TooManyMarks => "more than 60000 marks",
            Ground::FullList => "a list above its limits",
            Ground::IllFormedUtf8 => "bytes that are no UTF-8",
            Ground::PartOutsideText => "a token outside the text",
            Ground::UnknownKind => "a token of unknown kind",
            Ground::NotBlank => "a blank token without blanks or with other characters",
            Ground::RawLineEnd => "a raw line end",
            Ground::StrayWordChar => "a character of an encoded word where none may stand",
            Ground::LongRun => "more than 1000 blanks after an encoded word",
            Ground::LongText => "a text above 60000 bytes",
            Ground::UnwritableAddress => "an address that cannot be written",
            Ground::NoSuchEntry => "no such entry",
            Ground::NotAGroup => "an entry that is no group",
            Ground::NoSuchMember => "no such member",
            Ground::ShortBuffer => "a buffer that is too short",
        })
    }
}

impl fmt::Display for Fault {
    fn fmt<W: fmt::Write>(&self, f: &mut fmt::Formatter<W>) -> fmt::Result {
        let Fault {
            layer,
            ground,
            place,
        } = *self;
        let (layer_number, ground_number) = (u8::from(layer), u8::from(ground));
        write!(
            f,
            "{layer}: {ground} (layer {layer_number}, ground {ground_number}, place {place})"
        )
    }
}

// A code point, and the character itself where a line of text can show it.
fn show<W: fmt::Write>(what: &str, c: u32, f: &mut fmt::Formatter<W>) -> fmt::Result {
    write!(f, "{what} U+{c:04X}")?;
    match char::from_u32(c) {
        Some(sign) if !sign.is_control() && !is_white_space(c) => write!(f, " {sign}"),
        _ => Ok(()),
    }
}

impl fmt::Display for Mark {
    fn fmt<W: fmt::Write>(&self, f: &mut fmt::Formatter<W>) -> fmt::Result {
        match *self {
            Mark::Char(c) => show("character", c, f),
            Mark::Blank(c) => show("blank", c, f),
            Mark::LineEnd => write!(f, "raw line end"),
            Mark::Word => write!(f, "encoded word begins"),
            Mark::WordChar(c) => show("word character", c, f),
        }
    }
}

// How many marks there were, and how the source closed behind them.
impl fmt::Display for Collected {
    fn fmt<W: fmt::Write>(&self, f: &mut fmt::Formatter<W>) -> fmt::Result {
        let count = self.marks.len();
        match self.close {
            Ok(()) => write!(f, "{count} marks, then the end"),
            Err(fault) => write!(f, "{count} marks, then a fault: {fault}"),
        }
    }
}
