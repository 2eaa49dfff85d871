// A sink that holds nothing: it tells whether a buffer has room for the characters, and they have bytes.
ghost use Rattle.writer.specs.Taking.{Spared, NoRoom};

use crate::sink::{Refused, Sink};

#[derive(Clone, Copy)]
pub(crate) struct Room {
    // how many bytes it has room for
    pub(crate) left: usize,
}

impl Sink for Room {
    ghost use Rattle.writer.specs.SinkLaws.{room_laws};

    ghost took = { Spared };

    ghost refuses = { NoRoom };

    ghost laws = { room_laws };

    fn push(&mut self, c: u32) -> Result<(), Refused> {
        let c = char::from_u32(c).ok_or(Refused)?;
        self.left = self.left.checked_sub(c.len_utf8()).ok_or(Refused)?;
        Ok(())
    }
}
