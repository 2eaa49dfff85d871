// What a list answers to an event that it does not refuse, as a row of events keeps it.
ghost use Rattle.std.specs.Prelude.{◌≡◌, Ok};
ghost use Rattle.addresses.specs.Events as model;
ghost use Rattle.store.specs.Looks.{seen};
ghost use Rattle.life.specs.Told.{told};

use store::look::Look;

// A look is told by the lengths of what it saw: later events may change the characters, so a row cannot lend them.
#[derive(Clone, Copy)]
pub enum Answer {
    Done,
    Number(usize),
    Mailbox { name: Option<usize>, addr: usize },
    Group { name: usize, members: usize },
}

impl From<Look<'_>> for Answer {
    ghost from_gives = { λ look answer. told (Ok answer) ≡ model.told (model.shape (seen look)) };

    fn from(look: Look<'_>) -> Answer {
        match look {
            Look::Mailbox(mailbox) => Answer::Mailbox {
                name: mailbox.name.map(|n| n.len()),
                addr: mailbox.addr.len(),
            },
            Look::Group { name, members } => Answer::Group {
                name: name.len(),
                members,
            },
        }
    }
}
