// Reads. An accepted one replaces the list; a refused one leaves it as it stood.
ghost use Rattle.std.specs.Prelude.{◌≡◌};
ghost use Rattle.marks.specs.Texts.{text_stream};
ghost use Rattle.addresses.specs.Outcomes.{ComesOut};
ghost use Rattle.addresses.specs.Reading.{reading};
ghost use Rattle.mailboxes.specs.Listed.{listed};

use crate::list::MailboxList;
use marks::fault::Fault;
use marks::source::Source;
use marks::text::TextSource;

impl MailboxList {
    // Reads the marks of a source up to its close, or up to the mark that is refused.
    pub fn read<S: Source>(&mut self, source: &mut S) -> Result<(), Fault>
        ensures list { ComesOut (listed self.old) (reading (S.waiting source.old) (S.close source.old)).answer result (listed self.new) }
        ensures rest { S.waiting source.new ≡ (reading (S.waiting source.old) (S.close source.old)).left }
        ensures same { S.close source.new ≡ S.close source.old }
    {
        self.reader.read(source)?;
        self.reader.trade(&mut self.store);
        Ok(())
    }

    pub fn read_text(&mut self, text: &[u8]) -> Result<(), Fault>
        ensures { ComesOut (listed self.old) (reading (text_stream text.now).marks (text_stream text.now).close).answer result (listed self.new) }
    {
        let mut source = TextSource::new(text);
        self.read(&mut source)
    }
}
