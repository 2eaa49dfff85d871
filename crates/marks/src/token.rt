// A token of a header, as a cutter hands it over: a part of one text, and what kind of part it is.
// Any program may have cut it, so that nothing is known of the three numbers.

// The kinds of tokens.
pub const TEXT: u32 = 1;

pub const BLANKS: u32 = 2;

pub const RAW_LINE_END: u32 = 3;
// an encoded word, decoded
pub const ENCODED_WORD: u32 = 4;

#[derive(Clone, Copy, Debug, PartialEq, Eq)]
pub struct Token {
    // a number and no enum, since a row of tokens may come from any program, and one of an unknown kind is refused where it
    // stands
    pub kind: u32,
    pub start: usize,
    pub length: usize,
}
