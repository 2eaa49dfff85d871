// What takes the pieces of a written text one after the other: it adds up their lengths, or holds their bytes.
ghost use Rattle.std.specs.Prelude.{◌≡◌, ℕ, true, List};
ghost use Rattle.std.proofs.Math.Utf8.{scalars, encodes};
ghost use Rattle.addresses.specs.Lent.{lent};
ghost use Rattle.addresses.specs.Written.{mailbox_text};
ghost use Rattle.writer.specs.Pieces.{opening};
ghost use Rattle.writer.specs.Sinks.{Takes, SinkLaws};

use addresses::name_addr::NameAddr;
use writer::Refused;

pub(crate) trait Pieces {
    // What took pieces, their characters, and what it is behind them.
    ghost took: { Self → List ℕ → Self → Type 0 };

    // Characters that it cannot take.
    ghost refuses: { Self → List ℕ → Type 0 };

    // The bytes of some characters, whichever they are.
    fn take_signs(&mut self, signs: &[u8]) -> Result<(), Refused>
        ensures { (cs : List ℕ) → scalars cs ≡ true → signs.now ≡ encodes cs → Takes took refuses self.old cs result self.new };

    fn take_mailbox(&mut self, mailbox: NameAddr<u32>) -> Result<(), Refused>
        ensures { Takes took refuses self.old (mailbox_text (lent mailbox.entry)) result self.new };

    fn take_opening(&mut self, name: &[u32]) -> Result<(), Refused>
        ensures { Takes took refuses self.old (opening name.now) result self.new };

    ghost laws: { SinkLaws took refuses };
}
