// The largest text that is read, and how a longer one closes.
ghost use Rattle.std.specs.Prelude.{◌≡◌, cond};
ghost use Rattle.marks.specs.Texts.{close_of};

use crate::fault::{Fault, Ground, Layer};

pub const MAX_TEXT: usize = 60_000;

// How a source over a text of so many bytes closes once it has given all that the text holds.
pub(crate) fn close_of(length: usize) -> Result<(), Fault>
    ensures { result ≡ close_of length }
{
    if length > MAX_TEXT {
        return Err(Layer::Source.fault(Ground::LongText, MAX_TEXT));
    }
    Ok(())
}
