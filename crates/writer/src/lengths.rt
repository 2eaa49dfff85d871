// How many bytes the pieces of a list take. A number above the largest usize is answered as that.
ghost use Rattle.std.specs.Prelude.{◌≡◌};
ghost use Rattle.addresses.specs.Lent.{lent};
ghost use Rattle.addresses.specs.Written.{mailbox_text};
ghost use Rattle.writer.specs.Sizes.{byte_length, capped};
ghost use Rattle.writer.specs.Pieces.{opening};

use crate::counter::Counter;
use crate::text::{Opening, Text};
use addresses::name_addr::NameAddr;

fn counted<T: Text>(text: T) -> usize
    ensures { result ≡ capped (byte_length (T.characters text)) }
{
    let mut counter = Counter { bytes: 0 };
    text.spell(&mut counter)
        .map_or(usize::MAX, |()| counter.bytes)
}

pub fn mailbox_length(mailbox: NameAddr<u32>) -> usize
    ensures { result ≡ capped (byte_length (mailbox_text (lent mailbox.entry))) }
{
    counted(mailbox)
}

pub fn opening_length(name: &[u32]) -> usize
    ensures { result ≡ capped (byte_length (opening name.now)) }
{
    counted(Opening { name })
}
