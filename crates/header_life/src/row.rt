// A row of events in the making. Its reads have sources of two kinds: a text, or tokens under the blank layer.
use blanks::layer::BlankLayer;
use either::{Either, Left, Right};
use life::event::{Event, Part};
use life::turn::Turn;
use marks::table::TokenTable;
use marks::text::TextSource;
use marks::token::Token;
use std::alloc::{AllocError, Global};

type HeaderSource<'a> = Either<TextSource<'a>, BlankLayer<TokenTable<'a>>>;

#[derive(Drop)]
pub struct Row<'a> {
    pub turns: Vec<Turn<'a, HeaderSource<'a>>>,
}

impl<'a> Row<'a> {
    pub fn new(heap: Global) -> Row<'a> {
        Row {
            turns: Vec::new(heap),
        }
    }

    fn put(&mut self, event: Event<'a>, source: HeaderSource<'a>) -> Result<(), AllocError> {
        self.turns.push(Turn::new(event, source))?;
        Ok(())
    }

    // An event that is no read of a source: an empty text stands beside it.
    pub fn ask(&mut self, event: Event<'a>) -> Result<(), AllocError> {
        self.put(event, Left(TextSource::new(b"")))
    }

    pub fn ask_all(&mut self, events: &[Event<'a>]) -> Result<(), AllocError> {
        for event in events {
            self.ask(*event)?;
        }
        Ok(())
    }

    pub fn look(&mut self, part: Part) -> Result<(), AllocError> {
        self.ask(Event::Look(part))
    }

    pub fn read(&mut self, text: &'a [u8]) -> Result<(), AllocError> {
        self.put(Event::Read, Left(TextSource::new(text)))
    }

    pub fn read_tokens(&mut self, text: &'a [u8], tokens: &'a [Token]) -> Result<(), AllocError> {
        let layer = BlankLayer::new(TokenTable::new(text, tokens));
        self.put(Event::Read, Right(layer))
    }
}
