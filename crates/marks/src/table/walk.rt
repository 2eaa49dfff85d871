// How a token table is made, and how it walks its tokens.
ghost use Rattle.std.specs.Prelude.{◌≡◌, ◌+◌, ◌<◌, ◌≤◌, Some, slice_get, OnOk};
ghost use Rattle.marks.specs.Coming.{table_coming};
ghost use Rattle.marks.specs.Streams.{Moves, Next};
ghost use Rattle.marks.specs.Tables.{table_stream, TableLaw};
ghost use Rattle.marks.specs.TablesProper.{table_proper};

use crate::close::closing;
use crate::fault::{Fault, Ground, Layer};
use crate::limits::{MAX_TEXT, close_of};
use crate::mark::Mark;
use crate::opened::open_token;
use crate::part::{Part, PartKind};
use crate::source::Source;
use crate::table::TokenTable;
use crate::token::Token;
use characters::character_at;

impl<'a> TokenTable<'a> {
    pub fn new(text: &'a [u8], tokens: &'a [Token]) -> TokenTable<'a>
        ensures stream { table_coming result ≡ table_stream text.now tokens.now }
        ensures law { TableLaw }
    {
        let tokens = if text.len() > MAX_TEXT { &[] } else { tokens };
        let part = Part {
            kind: PartKind::Text,
            token: 0,
            at: 0,
            end: 0,
        };
        TokenTable {
            text,
            tokens,
            index: 0,
            part,
        }
    }
}

impl TokenTable<'_> {
    // Opens the next token, and answers the mark that it gives before its characters, if it gives one.
    fn open(&mut self, token: Token) -> Result<Option<Mark>, Fault>
        requires out { self.old.part.end ≤ self.old.part.at }
        requires next { slice_get self.old.tokens.now self.old.index ≡ Some token }
        ensures stream { Moves (table_coming self.old) result (table_coming self.new) }
        ensures on { OnOk result (self.new.index ≡ self.old.index + 1) }
        ensures tokens { self.new.tokens.now ≡ self.old.tokens.now }
    {
        let opened = open_token(self.text, token, self.index)?;
        self.index += 1;
        match opened {
            None => Ok(Some(Mark::LineEnd)),
            Some(part) => {
                self.part = part;
                Ok(part.lead())
            }
        }
    }

    // Gives the next character of the part that is open. A character that the part cuts off is none.
    fn character(&mut self) -> Result<Option<Mark>, Fault>
        requires { self.old.part.at < self.old.part.end }
        ensures { Next (table_coming self.old) result (table_coming self.new) }
    {
        let Some((c, length)) = character_at(&self.text[..self.part.end], self.part.at) else {
            return Err(Layer::Source.fault(Ground::IllFormedUtf8, self.part.at));
        };
        let mark = self.part.mark(c)?;
        self.part.at += length;
        Ok(Some(mark))
    }
}

impl Source for TokenTable<'_> {
    ghost waiting = { λ s. (table_coming s).marks };

    ghost close = { λ s. (table_coming s).close };

    ghost proper = { λ s. table_proper s.text.now s.tokens.now s.part s.index };

    fn next(&mut self) -> Result<Option<Mark>, Fault> {
        // a token of text may be empty, and then the next one is opened
        while self.part.at >= self.part.end {
            let Some(token) = self.tokens.get(self.index) else {
                return closing(close_of(self.text.len()));
            };
            if let Some(mark) = self.open(*token)? {
                return Ok(Some(mark));
            }
        }
        self.character()
    }
}
