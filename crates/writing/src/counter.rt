// A counter adds up the lengths of the pieces. A sum above the largest usize is counted as that.
ghost use Rattle.writing.specs.Adding.{Added, Never};

use crate::pieces::Pieces;
use addresses::name_addr::NameAddr;
use writer::{Counter, Refused, mailbox_length, opening_length};

impl Pieces for Counter {
    ghost use Rattle.writing.specs.Adding.{added_laws};

    ghost took = { Added };

    ghost refuses = { Never };

    ghost laws = { added_laws };

    fn take_signs(&mut self, signs: &[u8]) -> Result<(), Refused> {
        self.bytes = self.bytes.saturating_add(signs.len());
        Ok(())
    }

    fn take_mailbox(&mut self, mailbox: NameAddr<u32>) -> Result<(), Refused> {
        self.bytes = self.bytes.saturating_add(mailbox_length(mailbox));
        Ok(())
    }

    fn take_opening(&mut self, name: &[u32]) -> Result<(), Refused> {
        self.bytes = self.bytes.saturating_add(opening_length(name));
        Ok(())
    }
}
