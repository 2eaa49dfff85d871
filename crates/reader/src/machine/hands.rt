// What joins the name, the waiting blanks and the address in hand, and what begins there.
ghost use Rattle.std.specs.Prelude.{◌≡◌, true};
ghost use Rattle.reader.specs.Parts as part;
ghost use Rattle.reader.specs.Readers.{Joins, Tries, Becomes};
ghost use Rattle.reader.specs.States.{has_name, has_addr, outside_comments};
ghost use Rattle.reader.specs.declared.state.State.TheVariants.{AfterQuotedName};

use crate::chars::trim;
use crate::machine::Reader;
use crate::nesting::Nesting;
use crate::state::State;
use marks::fault::Ground;
use std::mem;

impl Reader {
    // Three, and no one over a row and a ground: each names its own where it is called.
    pub(super) fn join_name(&mut self, c: u32) -> Result<(), Ground>
        requires { has_name self.old.state ≡ true }
        ensures { Joins (part.with_name c) self.old result self.new }
    {
        self.name.push(c).map_err(|_| Ground::LongName)
    }

    pub(super) fn join_blanks(&mut self, c: u32) -> Result<(), Ground>
        requires { self.old.state ≡ AfterQuotedName }
        ensures { Joins (part.with_blank c) self.old result self.new }
    {
        self.blanks.push(c).map_err(|_| Ground::LongName)
    }

    pub(super) fn join_addr(&mut self, c: u32) -> Result<(), Ground>
        requires { has_addr self.old.state ≡ true }
        ensures { Joins (part.with_addr c) self.old result self.new }
    {
        self.addr.push(c).map_err(|_| Ground::LongAddress)
    }

    // The waiting blanks join the name.
    pub(super) fn keep_blanks(&mut self) -> Result<(), Ground>
        ensures { Tries part.keep_blanks self.old result self.new }
    {
        let blanks = self.blanks.as_slice();
        self.name.extend(blanks).map_err(|_| Ground::LongName)?;
        self.blanks.clear();
        Ok(())
    }

    pub(super) fn begin_quoted(&mut self)
        ensures { Becomes part.begin_quoted self.old self.new }
    {
        self.name.clear();
        self.state = State::QuotedName;
    }

    pub(super) fn begin_bracketed(&mut self, named: bool)
        ensures { Becomes (part.begin_bracketed named) self.old self.new }
    {
        self.addr.clear();
        self.state = State::BracketedAddr { named };
    }

    pub(super) fn begin_addr(&mut self, c: u32)
        ensures { Becomes (part.begin_addr c) self.old self.new }
    {
        self.addr.clear();
        // an empty row has room
        self.addr.push(c).unwrap();
        self.state = State::Unquoted;
    }

    pub(super) fn begin_word(&mut self)
        ensures { Becomes part.begin_word self.old self.new }
    {
        self.addr.clear();
        self.state = State::NameWithEncodedWord;
    }

    pub(super) fn begin_comment(&mut self)
        requires { outside_comments self.old.state ≡ true }
        ensures { Becomes part.begin_comment self.old self.new }
    {
        self.nesting = Nesting {
            began_in: self.state,
            depth: 1,
        };
        self.state = State::Comment;
    }

    // The trimmed address becomes the name.
    #[tactic(auto, using(crate::proofs::Ends::short_trim))]
    pub(super) fn name_by_addr(&mut self)
        ensures { Becomes part.name_by_addr self.old self.new }
    {
        trim(&mut self.addr);
        mem::swap(&mut self.name, &mut self.addr);
    }
}
