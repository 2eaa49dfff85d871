// A sink that counts the bytes of the characters.
ghost use Rattle.std.specs.Prelude.{◌≡◌, length};
ghost use Rattle.std.proofs.Math.Utf8.{encode};
ghost use Rattle.writer.specs.Taking.{Counted, TooMany};

use crate::sink::{Refused, Sink};

#[derive(Clone, Copy, Debug, PartialEq, Eq)]
pub struct Counter {
    pub bytes: usize,
}

// Numbers that are no characters are counted by their size too.
fn char_length(c: u32) -> usize
    ensures { result ≡ length (encode c) }
{
    match c {
        0..0x80 => 1,
        0x80..0x800 => 2,
        0x800..0x10000 => 3,
        _ => 4,
    }
}

impl Sink for Counter {
    ghost use Rattle.writer.specs.SinkLaws.{counter_laws};

    ghost took = { Counted };

    ghost refuses = { TooMany };

    ghost laws = { counter_laws };

    fn push(&mut self, c: u32) -> Result<(), Refused> {
        self.bytes = self.bytes.checked_add(char_length(c)).ok_or(Refused)?;
        Ok(())
    }
}
