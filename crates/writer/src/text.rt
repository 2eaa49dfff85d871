// The texts that are counted and put whole: they can be given to any sink.
ghost use Rattle.std.specs.Prelude.{ℕ, List};
ghost use Rattle.addresses.specs.Lent.{lent};
ghost use Rattle.addresses.specs.Written.{mailbox_text};
ghost use Rattle.writer.specs.Pieces.{opening};
ghost use Rattle.writer.specs.Sinks.{Takes};

use crate::sink::{Refused, Sink};
use crate::spell::{spell_mailbox, spell_opening};
use addresses::name_addr::NameAddr;

pub(crate) trait Text: Copy {
    ghost characters: { Self → List ℕ };

    fn spell<S: Sink>(self, sink: &mut S) -> Result<(), Refused>
        ensures { Takes S.took S.refuses sink.old (characters self) result sink.new };
}

impl<'a> Text for NameAddr<'a, u32> {
    ghost characters = { λ m. mailbox_text (lent m) };

    fn spell<S: Sink>(self, sink: &mut S) -> Result<(), Refused> {
        spell_mailbox(sink, self)
    }
}

// How a group begins.
#[derive(Clone, Copy)]
pub(crate) struct Opening<'a> {
    pub(crate) name: &'a [u32],
}

impl<'a> Text for Opening<'a> {
    ghost characters = { λ o. opening o.name.now };

    fn spell<S: Sink>(self, sink: &mut S) -> Result<(), Refused> {
        spell_opening(sink, self.name)
    }
}
