// Parts of a row of characters, by the lengths that a record keeps.
ghost use Rattle.std.specs.Prelude.{◌≡◌, ◌+◌, ◌≤◌, length, drop};
ghost use Rattle.addresses.specs.Lent.{lent};
ghost use Rattle.store.specs.Layout.{record_size, mailbox_in};

use crate::records::MailboxRecord;
use addresses::name_addr::NameAddr;

// The mailbox of these lengths whose characters begin at `at`.
pub fn mailbox_part(lengths: MailboxRecord, all: &[u32], at: usize) -> NameAddr<'_, u32>
    requires { at + record_size lengths ≤ length all.now }
    ensures { lent result ≡ mailbox_in lengths (drop at all.now) }
{
    let middle = at + lengths.name.unwrap_or(0);
    NameAddr {
        name: lengths.name.map(|_| &all[at..middle]),
        addr: &all[middle..middle + lengths.addr],
    }
}
