// The pieces of a list, put at a place of a buffer: whole, or not at all. So the room is tried before the buffer is touched.
ghost use Rattle.std.specs.Prelude.{◌≡◌, length};
ghost use Rattle.addresses.specs.Lent.{lent};
ghost use Rattle.addresses.specs.Written.{mailbox_text};
ghost use Rattle.writer.specs.Pieces.{opening};
ghost use Rattle.writer.specs.Placing.{spelt, behind, placed};

use crate::page::Page;
use crate::room::Room;
use crate::text::{Opening, Text};
use addresses::name_addr::NameAddr;

fn put<T: Text>(out: &mut [u8], at: usize, text: T) -> Option<usize>
    ensures answer { result ≡ behind (length out.old) at (spelt (T.characters text)) }
    ensures buffer { out.new ≡ placed out.old at (spelt (T.characters text)) }
{
    let left = out.len().checked_sub(at)?;
    text.spell(&mut Room { left }).ok()?;
    let mut page = Page {
        buffer: out,
        place: at,
    };
    // there is room, so that nothing is refused here
    text.spell(&mut page).ok()?;
    Some(page.place)
}

// A buffer and a place stay two parameters, as those who call have them; `Page` is the two within.
pub fn put_opening(out: &mut [u8], at: usize, name: &[u32]) -> Option<usize>
    ensures answer { result ≡ behind (length out.old) at (spelt (opening name.now)) }
    ensures buffer { out.new ≡ placed out.old at (spelt (opening name.now)) }
{
    put(out, at, Opening { name })
}

pub fn put_mailbox(out: &mut [u8], at: usize, mailbox: NameAddr<u32>) -> Option<usize>
    ensures answer { result ≡ behind (length out.old) at (spelt (mailbox_text (lent mailbox.entry))) }
    ensures buffer { out.new ≡ placed out.old at (spelt (mailbox_text (lent mailbox.entry))) }
{
    put(out, at, mailbox)
}
