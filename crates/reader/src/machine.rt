// What the reader has in hand between two marks.
ghost use Rattle.std.specs.Prelude.{◌≡◌, true};
ghost use Rattle.addresses.specs.Limits.{short};

use crate::chars::Chars;
use crate::draft::Draft;
use crate::nesting::Nesting;
use crate::state::State;

mod entries;
mod hands;
mod read;
mod signs;
mod take;

#[derive(Drop)]
pub struct Reader {
    state: State,
    // the open comment; kept and not looked at outside comments. For the two comment states to hold it, the other eight
    // would have to be an enum of their own, named through at every arm of the table
    nesting: Nesting,
    name: Chars,
    // behind a quoted name; they join it only where it goes on
    blanks: Chars,
    addr: Chars,
    draft: Draft,
    ghost short_name: { short name ≡ true },
    ghost short_blanks: { short blanks ≡ true },
    ghost short_addr: { short addr ≡ true },
}
