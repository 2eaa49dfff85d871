// What goes from the hands to the list: mailboxes that are finished, groups that open and close.
ghost use Rattle.addresses.specs.Machine.{open_group, close_group};
ghost use Rattle.reader.specs.Parts as part;
ghost use Rattle.reader.specs.Readers.{view, Acts, Tries, Becomes};

use crate::chars::{has_at, trim};
use crate::machine::Reader;
use crate::state::State;
use addresses::name_addr::NameAddr;
use marks::fault::Ground;

impl Reader {
    // Finishes the mailbox of the address in hand and, if it is named, the name in hand.
    pub(super) fn finish(&mut self, named: bool, next: State) -> Result<(), Ground>
        ensures { Tries (part.finish_named named next) self.old result self.new }
    {
        if !has_at(&self.addr) {
            return Err(Ground::AddressWithoutAt);
        }
        let mailbox = NameAddr {
            name: named.then_some(self.name.as_slice()),
            addr: self.addr.as_slice(),
        };
        self.draft.finish(mailbox).map_err(|_| Ground::FullList)?;
        self.state = next;
        Ok(())
    }

    // Finishes the mailbox of the trimmed address and no name.
    #[tactic(auto, using(crate::proofs::Ends::short_trim))]
    pub(super) fn finish_trimmed(&mut self) -> Result<(), Ground>
        ensures { Tries part.finish_trimmed self.old result self.new }
    {
        trim(&mut self.addr);
        self.finish(false, State::Initial)
    }

    // Opens a group with the name in hand.
    pub(super) fn open_group(&mut self) -> Result<(), Ground>
        ensures { Acts (open_group (view self.old).name) self.old result self.new }
    {
        if self.draft.is_open() {
            return Err(Ground::NestedGroup);
        }
        let name = self.name.as_slice();
        self.draft.open_group(name).map_err(|_| Ground::FullList)?;
        self.state = State::Initial;
        Ok(())
    }

    pub(super) fn close_group(&mut self) -> Result<(), Ground>
        ensures { Acts close_group self.old result self.new }
    {
        if !self.draft.is_open() {
            return Err(Ground::StraySemicolon);
        }
        self.close_any_group();
        Ok(())
    }

    // Where none is open, nothing changes but the state.
    pub(super) fn close_any_group(&mut self)
        ensures { Becomes part.close_any self.old self.new }
    {
        self.draft.close_group();
        self.state = State::Initial;
    }
}
