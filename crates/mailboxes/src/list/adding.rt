// Additions. Names and addresses are bytes; what is wrong first decides the fault, and then nothing is added.
ghost use Rattle.std.specs.Prelude.{◌≡◌};
ghost use Rattle.std.specs.Option.{option_map};
ghost use Rattle.marks.specs.declared.fault.Ground.TheVariants.{FullList};
ghost use Rattle.addresses.specs.Refusals.{list_fault};
ghost use Rattle.addresses.specs.Additions.{added, new_mailbox, new_group, new_member};
ghost use Rattle.addresses.specs.Outcomes.{ComesOut};
ghost use Rattle.mailboxes.specs.Listed.{listed};

use crate::list::MailboxList;
use addresses::name_addr::NameAddr;
use bounded::Full;
use marks::fault::{Fault, Ground, Layer};

// What an addition answers that would leave the list above its limits. Neither type is this crate's, so it is no `From`.
fn over_limits(_full: Full) -> Fault
    ensures { result ≡ list_fault FullList 0 }
{
    Layer::List.fault(Ground::FullList, 0)
}

impl MailboxList {
    // A name and an address stay two parameters, as those who call have them.
    pub fn add_mailbox(&mut self, name: Option<&[u8]>, addr: &[u8]) -> Result<(), Fault>
        ensures { ComesOut (listed self.old) (added (listed self.old) (new_mailbox (option_map (λ x. x.now) name.entry) addr.now)) result (listed self.new) }
    {
        self.addend.take_mailbox(NameAddr { name, addr })?;
        self.store
            .push_mailbox(self.addend.mailbox())
            .map_err(over_limits)
    }

    pub fn add_group(&mut self, name: &[u8]) -> Result<(), Fault>
        ensures { ComesOut (listed self.old) (added (listed self.old) (new_group name.now)) result (listed self.new) }
    {
        self.addend.take_group(name)?;
        self.store
            .push_group(self.addend.group_name())
            .map_err(over_limits)
    }

    // Adds a member at the end of the group that is the entry `entry`.
    pub fn add_member(
        &mut self,
        entry: usize,
        name: Option<&[u8]>,
        addr: &[u8],
    ) -> Result<(), Fault>
        ensures { ComesOut (listed self.old) (added (listed self.old) (new_member entry (option_map (λ x. x.now) name.entry) addr.now)) result (listed self.new) }
    {
        self.find_group(entry)?;
        self.addend.take_mailbox(NameAddr { name, addr })?;
        self.store
            .insert_member(entry, self.addend.mailbox())
            .map_err(over_limits)
    }
}
