// Writing into a lent buffer.
ghost use Rattle.std.specs.Prelude.{◌≡◌, length};
ghost use Rattle.addresses.specs.Writing.{writing as writes, filled};
ghost use Rattle.mailboxes.specs.Listed.{listed};

use crate::list::MailboxList;
use marks::fault::{Fault, Ground, Layer};
use writing::write_text;

impl MailboxList {
    // Writes the list as text, and answers the number of bytes. What stands behind them in the buffer stays, and a
    // buffer that is too short stays whole.
    pub fn write(&self, out: &mut [u8]) -> Result<usize, Fault>
        ensures answer { result ≡ writes (listed self.now) (length out.old) }
        ensures buffer { out.new ≡ filled (listed self.now) out.old }
    {
        write_text(&self.store, out).map_err(|e| Layer::List.fault(Ground::ShortBuffer, e.needed))
    }
}
