// The limits of a list, judged by the sizes that a store keeps.
ghost use Rattle.std.specs.Prelude.{◌≡◌, ◌+◌, length};
ghost use Rattle.std.specs.Result.{is_ok};
ghost use Rattle.addresses.specs.Lent.{lent};
ghost use Rattle.addresses.specs.Mailboxes.{mailbox_length};
ghost use Rattle.store.specs.Layout.{keeps};

use crate::rows::{MAX_CHARS, MAX_MAILBOXES};
use crate::store::Store;
use addresses::name_addr::NameAddr;
use bounded::Full;

pub const MAX_GROUPS: usize = 64;

impl Store {
    // Whether the list keeps the limits with one more mailbox. Its characters are counted apart, since their sum may not fit.
    pub(super) fn room_for_mailbox(&self, mailbox: NameAddr<'_, u32>) -> Result<(), Full>
        ensures { is_ok result ≡ keeps (length self.now.rows.mailboxes + 1) self.now.groups (length self.now.rows.chars + mailbox_length (lent mailbox.entry)) }
    {
        let room = MAX_CHARS - self.rows.chars.len();
        let name = mailbox.name.map_or(0, |name| name.len());
        if self.rows.mailboxes.len() < MAX_MAILBOXES
            && name <= room
            && mailbox.addr.len() <= room - name
        {
            Ok(())
        } else {
            Err(Full)
        }
    }

    // Whether it keeps them with one more group, which has no members.
    pub(super) fn room_for_group(&self, name: &[u32]) -> Result<(), Full>
        ensures { is_ok result ≡ keeps (length self.now.rows.mailboxes) (self.now.groups + 1) (length self.now.rows.chars + length name.now) }
    {
        if self.groups < MAX_GROUPS && name.len() <= MAX_CHARS - self.rows.chars.len() {
            Ok(())
        } else {
            Err(Full)
        }
    }
}
