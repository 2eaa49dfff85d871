// The mailboxes of a list, in two rows. Each edit is asked for only where there is room for it.
ghost use Rattle.std.specs.Prelude.{◌≡◌, ◌+◌, ◌<◌, ◌≤◌, [], ◌∷◌, ◌++◌, length};
ghost use Rattle.std.specs.Option.{option_map};
ghost use Rattle.std.specs.List.{insert, insert_slice, remove_range};
ghost use Rattle.addresses.specs.Lent.{lent};
ghost use Rattle.addresses.specs.Mailboxes.{mailbox_length};
ghost use Rattle.store.specs.Layout.{name_row, mailbox_row, mailbox_record};

use crate::place::Place;
use crate::records::MailboxRecord;
use addresses::name_addr::NameAddr;
use bounded::Bounded;

pub const MAX_MAILBOXES: usize = 256;

pub const MAX_CHARS: usize = 8192;

// One row of characters that all parts share, and not a String for each: all memory of a list is taken when it is made.
#[derive(Drop)]
pub struct Rows {
    // those of the loose mailboxes and of the members, in the order of the list
    pub mailboxes: Bounded<MailboxRecord, MAX_MAILBOXES>,
    // each entry's in the same order: a group's name first, and of a mailbox its name before its address
    pub chars: Bounded<u32, MAX_CHARS>,
}

// The characters of a display name, none if it is absent.
fn name_row(name: Option<&[u32]>) -> &[u32]
    ensures { result.now ≡ name_row (option_map (λ x. x.now) name.entry) }
{
    name.unwrap_or(&[])
}

impl Rows {
    // Puts the mailbox at the ends of the rows.
    pub fn append(&mut self, mailbox: NameAddr<'_, u32>)
        requires record_room { length self.old.mailboxes < 256 }
        requires char_room { length self.old.chars + mailbox_length (lent mailbox) ≤ 8192 }
        ensures records { self.new.mailboxes ≡ self.old.mailboxes ++ mailbox_record (lent mailbox.entry) ∷ [] }
        ensures row { self.new.chars ≡ self.old.chars ++ mailbox_row (lent mailbox.entry) }
    {
        self.mailboxes.push(MailboxRecord::from(mailbox)).unwrap();
        self.chars.extend(name_row(mailbox.name)).unwrap();
        self.chars.extend(mailbox.addr).unwrap();
    }

    // Puts the mailbox at a place.
    pub fn insert(&mut self, at: Place, mailbox: NameAddr<'_, u32>)
        requires within { at.chars ≤ length self.old.chars }
        requires record_room { length self.old.mailboxes < 256 }
        requires char_room { length self.old.chars + mailbox_length (lent mailbox) ≤ 8192 }
        ensures records { self.new.mailboxes ≡ insert self.old.mailboxes at.mailboxes (mailbox_record (lent mailbox.entry)) }
        ensures row { self.new.chars ≡ insert_slice self.old.chars at.chars (mailbox_row (lent mailbox.entry)) }
    {
        self.mailboxes
            .insert_slice(at.mailboxes, &[MailboxRecord::from(mailbox)])
            .unwrap();
        // both parts at the end first, so that what lies behind the place is moved once
        let end = self.chars.len();
        self.chars.extend(name_row(mailbox.name)).unwrap();
        self.chars.extend(mailbox.addr).unwrap();
        self.chars.bring(at.chars, end);
    }

    // Takes out what lies between two places.
    pub fn cut(&mut self, start: Place, end: Place)
        requires records_first { start.mailboxes ≤ end.mailboxes }
        requires row_first { start.chars ≤ end.chars }
        ensures records { self.new.mailboxes ≡ remove_range self.old.mailboxes start.mailboxes end.mailboxes }
        ensures row { self.new.chars ≡ remove_range self.old.chars start.chars end.chars }
    {
        self.mailboxes.remove_range(start.mailboxes, end.mailboxes);
        self.chars.remove_range(start.chars, end.chars);
    }
}
