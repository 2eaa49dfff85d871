// Where in an entry the reader stands.

#[derive(Clone, Copy)]
pub enum State {
    // an entry may begin
    Initial,
    QuotedName,
    // behind a backslash in a quoted name
    EscapedChar,
    AfterQuotedName,
    // named: the name in hand is the display name of the address. Else it has none
    BracketedAddr { named: bool },
    AfterBracketedAddr,
    // an address that may yet turn out to be a name
    Unquoted,
    NameWithEncodedWord,
    Comment,
    CommentEscapedChar,
}
