// The text of a whole list, one step of a walk after the other: counted, and written into a lent buffer.
ghost use Rattle.std.specs.Prelude.{◌≡◌, true, length};
ghost use Rattle.std.proofs.Math.Utf8.{scalars};
ghost use Rattle.addresses.specs.Written.{written};
ghost use Rattle.addresses.specs.Writing.{needed, filled};
ghost use Rattle.store.specs.Stored.{stored};
ghost use Rattle.writer.specs.Sinks.{Takes};
ghost use Rattle.writing.specs.Writes.{told};

use crate::pieces::Pieces;
use crate::stage::Stage;
use crate::step::spell_step;
use store::store::Store;
use writer::{Counter, Page, Refused};

// The text does not fit the buffer, or a character of it has no bytes.
#[derive(Clone, Copy, Debug, PartialEq, Eq)]
pub struct ShortBuffer {
    // how many bytes the text takes
    pub needed: usize,
}

// A refusal leaves the pieces before it where they are.
fn spell<P: Pieces>(list: &Store, pieces: &mut P) -> Result<(), Refused>
    ensures { Takes P.took P.refuses pieces.old (written (stored list.now)) result pieces.new }
{
    let mut stage = Stage::start();
    for look in list.walk() {
        spell_step(pieces, stage, look)?;
        stage = stage.after(look);
    }
    Ok(())
}

// How many bytes the list's text takes. It is never refused: a store holds too little for that.
pub fn text_length(list: &Store) -> usize
    ensures { result ≡ needed (stored list.now) }
{
    let mut counter = Counter { bytes: 0 };
    spell(list, &mut counter).map_or(usize::MAX, |()| counter.bytes)
}

// Puts the list's text at the beginning of the buffer, and answers how many bytes it takes. The room is judged first, so
// that a buffer that is too short stays as it was. A character that is no scalar value has no bytes, and is refused where
// it comes.
pub fn write_text(list: &Store, out: &mut [u8]) -> Result<usize, ShortBuffer>
    ensures answer { result ≡ told (stored list.now) (length out.old) }
    ensures buffer { scalars (written (stored list.now)) ≡ true → out.new ≡ filled (stored list.now) out.old }
{
    let needed = text_length(list);
    if needed > out.len() {
        return Err(ShortBuffer { needed });
    }
    let mut page = Page {
        buffer: out,
        place: 0,
    };
    spell(list, &mut page)
        .map(|()| needed)
        .map_err(|_| ShortBuffer { needed })
}
