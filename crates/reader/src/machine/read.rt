// A whole read, over any source.
ghost use Rattle.std.specs.Prelude.{◌≡◌, [], IfOk};
ghost use Rattle.store.specs.Stored.{stored};
ghost use Rattle.addresses.specs.Reading.{reading};
ghost use Rattle.addresses.specs.Steps.{start};
ghost use Rattle.reader.specs.Readers.{view, read_list, Answered};
ghost use Rattle.reader.specs.Views.{standing};

use crate::chars::Chars;
use crate::draft::Draft;
use crate::machine::Reader;
use crate::nesting::Nesting;
use crate::state::State;
use marks::fault::{Fault, Ground, Layer};
use marks::source::Source;
use std::alloc::{AllocError, Global};
use store::store::Store;

const MAX_MARKS: usize = 60_000;

impl Reader {
    // Takes all the memory that any read needs.
    pub fn new(heap: Global) -> Result<Reader, AllocError>
        ensures { IfOk result (λ v. read_list v ≡ []) }
    {
        Ok(Reader {
            state: State::Initial,
            nesting: Nesting {
                began_in: State::Initial,
                depth: 0,
            },
            name: Chars::new(heap)?,
            blanks: Chars::new(heap)?,
            addr: Chars::new(heap)?,
            draft: Draft::new(heap)?,
        })
    }

    // The hands are not cleared here: each is where something begins in it.
    fn restart(&mut self)
        ensures { standing (view self.new) ≡ start }
    {
        self.state = State::Initial;
        self.draft.clear();
    }

    // Reads what waits in `source`. What was read before is lost.
    pub fn read<S: Source>(&mut self, source: &mut S) -> Result<(), Fault>
        ensures answer { Answered (reading (S.waiting source.old) (S.close source.old)).answer result self.new }
        ensures rest { S.waiting source.new ≡ (reading (S.waiting source.old) (S.close source.old)).left }
        ensures same { S.close source.new ≡ S.close source.old }
    {
        self.restart();
        // counted by hand: the source is asked inside the loop, and the end has a place too, so no `enumerate` fits
        let mut taken = 0;
        while let Some(mark) = source.next()? {
            if taken >= MAX_MARKS {
                return Err(Layer::Reader.fault(Ground::TooManyMarks, taken));
            }
            self.take(mark)
                .map_err(|ground| Layer::Reader.fault(ground, taken))?;
            taken += 1;
        }
        self.end()
            .map_err(|ground| Layer::Reader.fault(ground, taken))
    }

    // Hands the list over that was read, and takes another in its place.
    pub fn trade(&mut self, other: &mut Store)
        ensures given { stored other.new ≡ read_list self.old }
        ensures taken { read_list self.new ≡ stored other.old }
    {
        self.draft.trade(other);
    }
}
