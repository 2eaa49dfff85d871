// What a source gives, one at a time. A character is its code point.

#[derive(Clone, Copy, Debug, PartialEq, Eq)]
pub enum Mark {
    // any character of the text
    Char(u32),
    // a character with the property White_Space that a header reader cut out as such
    Blank(u32),
    // the end of a line of a folded header, before unfolding
    LineEnd,
    // an encoded word begins
    Word,
    // a character of an encoded word, decoded
    WordChar(u32),
}
