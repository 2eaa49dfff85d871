// A page holds the bytes of the pieces: each is put whole, or not at all.
ghost use Rattle.writer.specs.Taking.{Written, Unwritten};

use crate::pieces::Pieces;
use addresses::name_addr::NameAddr;
use writer::{Page, Refused, put_bytes, put_mailbox, put_opening};

impl<'a> Pieces for Page<'a> {
    ghost use Rattle.writer.specs.SinkLaws.{page_laws};

    ghost took = { Written };

    ghost refuses = { Unwritten };

    ghost laws = { page_laws };

    fn take_signs(&mut self, signs: &[u8]) -> Result<(), Refused> {
        self.place = put_bytes(self.buffer, self.place, signs).ok_or(Refused)?;
        Ok(())
    }

    fn take_mailbox(&mut self, mailbox: NameAddr<u32>) -> Result<(), Refused> {
        self.place = put_mailbox(self.buffer, self.place, mailbox).ok_or(Refused)?;
        Ok(())
    }

    fn take_opening(&mut self, name: &[u32]) -> Result<(), Refused> {
        self.place = put_opening(self.buffer, self.place, name).ok_or(Refused)?;
        Ok(())
    }
}
