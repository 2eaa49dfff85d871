// How an addend is made, how it takes what is given, and what it then holds.
ghost use Rattle.std.specs.Prelude.{◌≡◌, [], IfOk, OnOk, Some, None};
ghost use Rattle.std.specs.Option.{option_map};
ghost use Rattle.std.specs.Result.{is_ok};
ghost use Rattle.std.specs.Str.{chars};
ghost use Rattle.addresses.specs.Mailboxes.{mailbox};
ghost use Rattle.addresses.specs.Lent.{lent};
ghost use Rattle.additions.specs.Taking.{taken_mailbox, taken_group, leaving};
ghost use Rattle.additions.specs.Steps.{short_name};
ghost use Rattle.additions.specs.Held.{held_name, held_addr, held_group, held};

use crate::addend::Addend;
use crate::row::{Row, fill};
use crate::text::{as_name, as_text};
use addresses::name_addr::NameAddr;
use bounded::Full;
use marks::fault::{Fault, Ground, Layer};
use std::alloc::{AllocError, Global};

impl Addend {
    // It holds a mailbox without a name, of the empty address, until something is taken.
    pub fn new(heap: Global) -> Result<Addend, AllocError>
        ensures { IfOk result (λ h. held h ≡ mailbox None []) }
    {
        Ok(Addend {
            name: Row::new(heap)?,
            named: false,
            addr: Row::new(heap)?,
        })
    }

    // Decodes a mailbox's name, if it has one, and its address, and judges them. After a refusal nothing is said of
    // what is held.
    pub fn take_mailbox(&mut self, mailbox: NameAddr<'_, u8>) -> Result<(), Fault>
        ensures { leaving result (held self.new) ≡ taken_mailbox (option_map (λ x. x.now) mailbox.entry.name) mailbox.entry.addr.now }
    {
        // ill-formed bytes come before any limit
        let name = as_name(mailbox.name)?;
        let addr = as_text(mailbox.addr)?;
        self.take_name(name)
            .map_err(|_| Layer::List.fault(Ground::LongName, 0))?;
        fill(&mut self.addr, addr).map_err(|_| Layer::List.fault(Ground::LongAddress, 0))?;
        self.judge()
    }

    // The same with the name of a group.
    pub fn take_group(&mut self, name: &[u8]) -> Result<(), Fault>
        ensures taken { leaving result (held_group self.new) ≡ taken_group name.now }
        ensures named { held_name self.new ≡ Some (held_group self.new) }
    {
        self.named = true;
        let name = as_text(name)?;
        fill(&mut self.name, name).map_err(|_| Layer::List.fault(Ground::LongName, 0))
    }

    fn take_name(&mut self, name: Option<&str>) -> Result<(), Full>
        ensures room { is_ok result ≡ short_name (option_map (λ x. chars x.now) name.entry) }
        ensures after { OnOk result (held_name self.new ≡ option_map (λ x. chars x.now) name.entry) }
    {
        self.named = name.is_some();
        match name {
            Some(text) => fill(&mut self.name, text),
            None => Ok(()),
        }
    }

    // The mailbox that was taken. Its name is that of the group, where one was taken.
    pub fn mailbox(&self) -> NameAddr<'_, u32>
        ensures { lent result ≡ held self.now }
    {
        NameAddr {
            name: self.named.then_some(self.name.as_slice()),
            addr: self.addr.as_slice(),
        }
    }

    // The name of the group that was taken.
    pub fn group_name(&self) -> &[u32]
        ensures { result.now ≡ held_group self.now }
    {
        self.name.as_slice()
    }
}
