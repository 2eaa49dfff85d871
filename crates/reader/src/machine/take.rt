// What a mark does: the table of states and marks.
ghost use Rattle.marks.specs.declared.mark.Mark.TheVariants.{Char};
ghost use Rattle.reader.specs.Readers.{Takes, Ends};

use crate::machine::Reader;
use crate::state::State;
use marks::fault::Ground;
use marks::mark::Mark;

impl Reader {
    // Most marks are Chars, so their arm comes first, and leaves only the state to look at. A `match` is the table of the machine
    // itself: closures or a trait for each state would scatter it.
    pub(super) fn take(&mut self, mark: Mark) -> Result<(), Ground>
        ensures { Takes mark self.old result self.new }
    {
        match (self.state, mark) {
            (_, Mark::Char(c)) => self.take_char(c),
            (_, Mark::LineEnd) => Err(Ground::RawLineEnd),
            (State::Initial | State::AfterBracketedAddr, Mark::Blank(_)) => Ok(()),
            (State::Initial, Mark::Word) => {
                self.begin_word();
                Ok(())
            }
            (State::QuotedName, Mark::Blank(c) | Mark::WordChar(c)) => self.join_name(c),
            (State::QuotedName | State::NameWithEncodedWord, Mark::Word) => Ok(()),
            (State::EscapedChar, Mark::Blank(c)) => self.escaped_char(c),
            (State::EscapedChar, Mark::Word) => Err(Ground::WordAfterBackslash),
            (State::AfterQuotedName, Mark::Blank(c)) => self.join_blanks(c),
            (State::AfterQuotedName, Mark::Word) => self.keep_blanks(),
            // blanks that wait go on waiting
            (State::AfterQuotedName, Mark::WordChar(c)) => self.join_name(c),
            (State::BracketedAddr { .. }, Mark::Blank(c)) => self.join_addr(c),
            (State::BracketedAddr { .. }, Mark::Word) => Err(Ground::WordInBrackets),
            (State::AfterBracketedAddr, Mark::Word) => Err(Ground::WordAfterBrackets),
            (State::Unquoted, Mark::Blank(c)) => self.join_addr(c),
            (State::Unquoted, Mark::Word) => {
                self.state = State::NameWithEncodedWord;
                Ok(())
            }
            (State::NameWithEncodedWord, Mark::Blank(c) | Mark::WordChar(c)) => self.join_addr(c),
            (State::Comment, Mark::Blank(_) | Mark::Word | Mark::WordChar(_)) => Ok(()),
            (State::CommentEscapedChar, Mark::Blank(_) | Mark::Word) => {
                self.state = State::Comment;
                Ok(())
            }
            (_, Mark::WordChar(_)) => Err(Ground::StrayWordChar),
        }
    }

    fn take_char(&mut self, c: u32) -> Result<(), Ground>
        ensures { Takes (Char c) self.old result self.new }
    {
        match self.state {
            State::Initial => self.initial_char(c),
            State::QuotedName => self.quoted_char(c),
            State::EscapedChar => self.escaped_char(c),
            State::AfterQuotedName => self.after_quoted_char(c),
            State::BracketedAddr { named } => self.bracketed_char(named, c),
            State::AfterBracketedAddr => self.after_bracketed_char(c),
            State::Unquoted => self.unquoted_char(c),
            State::NameWithEncodedWord => self.word_char(c),
            State::Comment => self.comment_char(c),
            State::CommentEscapedChar => {
                self.state = State::Comment;
                Ok(())
            }
        }
    }

    // What the end of the marks does.
    pub(super) fn end(&mut self) -> Result<(), Ground>
        ensures { Ends self.old result self.new }
    {
        if self.draft.is_open() {
            return Err(Ground::UnclosedGroup);
        }
        match self.state {
            State::Initial | State::AfterBracketedAddr => {}
            State::Unquoted => self.finish_trimmed()?,
            _ => return Err(Ground::UnfinishedEntry),
        }
        Ok(())
    }
}
