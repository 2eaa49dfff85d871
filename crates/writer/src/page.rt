// A sink that holds the bytes of the characters in a lent buffer.
ghost use Rattle.std.specs.Prelude.{◌≡◌, [], ◌∷◌, OnErr};
ghost use Rattle.writer.specs.Sinks.{Takes};
ghost use Rattle.writer.specs.Taking.{Written, Unwritten};

use crate::bytes::put_bytes;
use crate::sink::{Refused, Sink};
use characters::encode;

#[derive(Drop)]
pub struct Page<'a> {
    pub buffer: &'a mut [u8],
    // where writing goes on
    pub place: usize,
}

impl<'a> Sink for Page<'a> {
    ghost use Rattle.writer.specs.SinkLaws.{page_laws};

    ghost took = { Written };

    ghost refuses = { Unwritten };

    ghost laws = { page_laws };

    // A character that is refused leaves the buffer as it was. Laid out in each caller, which then keeps the page's
    // place in a register.
    #[inline(always)]
    fn push(&mut self, c: u32) -> Result<(), Refused>
        ensures takes { Takes Written Unwritten self.old (c ∷ []) result self.new }
        ensures refused { OnErr result (self.new.buffer.now ≡ self.old.buffer.now) }
    {
        // most characters are ASCII, and need no encoder
        if c < 0x80 && self.place < self.buffer.len() {
            self.buffer[self.place] = c as u8;
            self.place += 1;
            return Ok(());
        }
        let Some(found) = encode(c) else {
            return Err(Refused);
        };
        let bytes = found.0;
        self.place = put_bytes(self.buffer, self.place, &bytes[..found.1]).ok_or(Refused)?;
        Ok(())
    }
}
