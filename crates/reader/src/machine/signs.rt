// What each state does at a Char: its signs first, in the order of the rules, and then any other character. A `match` shows the
// signs of a state beside what falls to its last arm, as no table of closures would.
ghost use Rattle.std.specs.Prelude.{◌≡◌, Ok};
ghost use Rattle.reader.specs.Readers.{ActsAt, ActsElse};
ghost use Rattle.reader.specs.declared.state.State.TheVariants.{Initial, QuotedName, EscapedChar, AfterQuotedName, BracketedAddr, AfterBracketedAddr, Unquoted, NameWithEncodedWord, Comment};

use crate::chars::has_at;
use crate::machine::Reader;
use crate::nesting::MAX_DEPTH;
use crate::state::State;
use characters::is_white_space;
use marks::fault::Ground;

impl Reader {
    pub(super) fn initial_char(&mut self, c: u32) -> Result<(), Ground>
        requires { self.old.state ≡ Initial }
        ensures { ActsAt Initial c self.old result self.new }
    {
        match char::from_u32(c) {
            // RFC 5322 section 4.4 allows empty elements
            Some(',') => {}
            Some('"') => self.begin_quoted(),
            Some('<') => self.begin_bracketed(false),
            Some(';') => self.close_group()?,
            Some('(') => self.begin_comment(),
            _ => self.initial_other(c),
        }
        Ok(())
    }

    fn initial_other(&mut self, c: u32)
        requires { self.old.state ≡ Initial }
        ensures { ActsElse Initial c self.old (Ok result) self.new }
    {
        if !is_white_space(c) {
            self.begin_addr(c);
        }
    }

    pub(super) fn quoted_char(&mut self, c: u32) -> Result<(), Ground>
        requires { self.old.state ≡ QuotedName }
        ensures { ActsAt QuotedName c self.old result self.new }
    {
        match char::from_u32(c) {
            Some('\\') => self.state = State::EscapedChar,
            Some('"') => {
                // blanks that still waited behind an earlier name belong to no later one
                self.blanks.clear();
                self.state = State::AfterQuotedName;
            }
            _ => self.join_name(c)?,
        }
        Ok(())
    }

    // Whatever stands behind the backslash joins the name, and the backslash does not.
    pub(super) fn escaped_char(&mut self, c: u32) -> Result<(), Ground>
        requires { self.old.state ≡ EscapedChar }
        ensures { ActsElse EscapedChar c self.old result self.new }
    {
        self.state = State::QuotedName;
        self.join_name(c)
    }

    pub(super) fn after_quoted_char(&mut self, c: u32) -> Result<(), Ground>
        requires { self.old.state ≡ AfterQuotedName }
        ensures { ActsAt AfterQuotedName c self.old result self.new }
    {
        match char::from_u32(c) {
            Some('<') => self.begin_bracketed(true),
            Some(':') => self.open_group()?,
            Some('(') => self.begin_comment(),
            Some('"') => {
                self.keep_blanks()?;
                self.state = State::QuotedName;
            }
            _ => self.after_quoted_other(c)?,
        }
        Ok(())
    }

    // Lenient: a name may go on behind its quotes, as in `"b"c <z@w>`. The blanks between are then its own.
    fn after_quoted_other(&mut self, c: u32) -> Result<(), Ground>
        requires { self.old.state ≡ AfterQuotedName }
        ensures { ActsElse AfterQuotedName c self.old result self.new }
    {
        if is_white_space(c) {
            return self.join_blanks(c);
        }
        self.keep_blanks()?;
        self.join_name(c)
    }

    pub(super) fn bracketed_char(&mut self, named: bool, c: u32) -> Result<(), Ground>
        requires { self.old.state ≡ BracketedAddr named }
        ensures { ActsAt (BracketedAddr named) c self.old result self.new }
    {
        match char::from_u32(c) {
            Some('>') => self.finish(named, State::AfterBracketedAddr),
            _ => self.join_addr(c),
        }
    }

    pub(super) fn after_bracketed_char(&mut self, c: u32) -> Result<(), Ground>
        requires { self.old.state ≡ AfterBracketedAddr }
        ensures { ActsAt AfterBracketedAddr c self.old result self.new }
    {
        match char::from_u32(c) {
            Some(',') => self.state = State::Initial,
            // lenient: outside a group it acts like a comma
            Some(';') => self.close_any_group(),
            Some('(') => self.begin_comment(),
            _ if is_white_space(c) => {}
            _ => return Err(Ground::CharAfterBrackets),
        }
        Ok(())
    }

    pub(super) fn unquoted_char(&mut self, c: u32) -> Result<(), Ground>
        requires { self.old.state ≡ Unquoted }
        ensures { ActsAt Unquoted c self.old result self.new }
    {
        match char::from_u32(c) {
            Some('<') => {
                self.name_by_addr();
                self.begin_bracketed(true);
            }
            Some(',') => self.finish_trimmed()?,
            Some(';') => {
                self.finish_trimmed()?;
                self.close_any_group();
            }
            Some('(') => self.begin_comment(),
            // only an address that has no `@` yet can be the name of a group
            Some(':') if !has_at(&self.addr) => {
                self.name_by_addr();
                self.open_group()?;
            }
            _ => self.join_addr(c)?,
        }
        Ok(())
    }

    // Behind an encoded word the text is a name, whatever else it holds: `,` and `;` join it.
    pub(super) fn word_char(&mut self, c: u32) -> Result<(), Ground>
        requires { self.old.state ≡ NameWithEncodedWord }
        ensures { ActsAt NameWithEncodedWord c self.old result self.new }
    {
        match char::from_u32(c) {
            Some('<') => {
                self.name_by_addr();
                self.begin_bracketed(true);
            }
            Some(':') => {
                self.name_by_addr();
                self.open_group()?;
            }
            Some('(') => self.begin_comment(),
            _ => self.join_addr(c)?,
        }
        Ok(())
    }

    // Comments nest (RFC 5322 section 3.2.2).
    pub(super) fn comment_char(&mut self, c: u32) -> Result<(), Ground>
        requires { self.old.state ≡ Comment }
        ensures { ActsAt Comment c self.old result self.new }
    {
        match char::from_u32(c) {
            Some('(') if self.nesting.depth >= MAX_DEPTH => return Err(Ground::DeepComment),
            Some('(') => self.nesting.depth += 1,
            Some(')') if self.nesting.depth <= 1 => self.state = self.nesting.began_in,
            Some(')') => self.nesting.depth -= 1,
            Some('\\') => self.state = State::CommentEscapedChar,
            _ => {}
        }
        Ok(())
    }
}
