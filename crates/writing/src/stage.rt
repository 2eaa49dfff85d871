// Where a walk through a list stands, as far as commas, spaces and the ends of groups depend on it.
ghost use Rattle.std.specs.Prelude.{◌≡◌};
ghost use Rattle.store.specs.Looks.{seen};
ghost use Rattle.writing.specs.Stages.{start, after, lead_at, tail_at};

use store::look::Look;
use writer::{closing, entry_lead, member_lead};

// A number and a flag, and no enum of inside and outside: `first` says on either side whether a comma is due.
#[derive(Clone, Copy)]
pub(crate) struct Stage {
    // how many members of the open group are still to come; none where no group is open
    members: usize,
    // whether nothing was shown before: of the open group, or of the whole list where none is open
    first: bool,
}

impl Stage {
    pub(crate) fn start() -> Stage
        ensures { result ≡ start }
    {
        Stage {
            members: 0,
            first: true,
        }
    }

    // What is written before that which comes next.
    pub(crate) fn lead(self) -> &'static [u8]
        ensures { result.now ≡ lead_at self }
    {
        if self.members == 0 {
            entry_lead(self.first)
        } else {
            member_lead(self.first)
        }
    }

    // What is written behind `look`: a group ends behind its last member, and one without members at once.
    pub(crate) fn tail(self, look: Look) -> &'static [u8]
        ensures { result.now ≡ tail_at self (seen look.entry) }
    {
        let ends = match look {
            Look::Mailbox(_) => self.members == 1,
            Look::Group { members, .. } => members == 0,
        };
        if ends { closing() } else { b"" }
    }

    // Where the walk stands behind `look`.
    pub(crate) fn after(self, look: Look) -> Stage
        ensures { result ≡ after self (seen look.entry) }
    {
        match look {
            Look::Mailbox(_) => Stage {
                members: self.members.saturating_sub(1),
                first: false,
            },
            Look::Group { members, .. } => Stage {
                members,
                first: members > 0,
            },
        }
    }
}
