// How a text source is made, and how it walks its text.
ghost use Rattle.std.specs.Prelude.{◌≡◌};
ghost use Rattle.marks.specs.Coming.{text_coming};
ghost use Rattle.marks.specs.Texts.{text_stream, TextLaw};
ghost use Rattle.marks.specs.TextsProper.{text_proper};

use crate::close::closing;
use crate::fault::{Fault, Ground, Layer};
use crate::limits::{MAX_TEXT, close_of};
use crate::mark::Mark;
use crate::source::Source;
use crate::text::TextSource;
use characters::character_at;

impl<'a> TextSource<'a> {
    pub fn new(text: &'a [u8]) -> TextSource<'a>
        ensures stream { text_coming result ≡ text_stream text.now }
        ensures law { TextLaw }
    {
        let end = if text.len() > MAX_TEXT { 0 } else { text.len() };
        TextSource { text, at: 0, end }
    }
}

impl Source for TextSource<'_> {
    ghost waiting = { λ s. (text_coming s).marks };

    ghost close = { λ s. (text_coming s).close };

    ghost proper = { λ s. text_proper s.text.now s.at };

    fn next(&mut self) -> Result<Option<Mark>, Fault> {
        if self.at >= self.end {
            return closing(close_of(self.text.len()));
        }
        let Some((c, length)) = character_at(self.text, self.at) else {
            return Err(Layer::Source.fault(Ground::IllFormedUtf8, self.at));
        };
        self.at += length;
        Ok(Some(Mark::Char(c)))
    }
}
