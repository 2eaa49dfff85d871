// A list of mailboxes and groups. Its calls stand in the modules below.
ghost use Rattle.std.specs.Prelude.{◌≡◌, true};
ghost use Rattle.addresses.specs.Fine.{fine};
ghost use Rattle.store.specs.Stored.{stored};

use additions::addend::Addend;
use reader::machine::Reader;
use store::store::Store;

mod adding;
mod making;
mod questions;
mod reading;
mod removing;
mod text;

// No list can exist that is not proper: every one is written as a text that reads as it. It has no Model, which would show
// the entries alone: the law of a row of events needs `proper` of whatever list it is given, and each call that lends the
// list would have to promise it.
#[derive(Drop)]
pub struct MailboxList {
    store: Store,
    // where a read builds, so that a refused one leaves the list as it stood
    reader: Reader,
    // the name and the address of an addition, decoded
    addend: Addend,
    ghost proper: { fine (stored store) ≡ true },
}
