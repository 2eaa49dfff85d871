// The token table: its four kinds, overlapping and empty parts, and each of its refusals.
use crate::given::{gives, source_fault};
use marks::fault::{Fault, Ground};
use marks::mark::Mark;
use marks::table::TokenTable;
use marks::token::Token;
use std::alloc::Global;
use std::process::Abort;
use std::test::Fail;

fn token(kind: u32, start: usize, length: usize) -> Token {
    Token {
        kind,
        start,
        length,
    }
}

// The table of the tokens over the text gives just these marks, and then closes so.
fn table<'a>(
    rt: &impl Abort,
    heap: Global,
    text: &'a [u8],
    tokens: &'a [Token],
    marks: &[Mark],
    close: Result<(), Fault>,
) -> Result<(), Fail> {
    let mut source = TokenTable::new(text, tokens);
    gives(rt, heap, &mut source, marks, close)
}

#[test]
fn the_four_kinds(rt: HostRuntime) -> Result<(), Fail> {
    let tokens = [
        token(1, 0, 1),
        token(2, 1, 1),
        token(3, 99, 99),
        token(4, 2, 2),
    ];
    let marks = [
        Mark::Char(0x61),
        Mark::Blank(0x20),
        Mark::LineEnd,
        Mark::Word,
        Mark::WordChar(0x62),
        Mark::WordChar(0x63),
    ];
    table(&rt, rt.alloc(), b"a bc", &tokens, &marks, Ok(()))
}

#[test]
fn parts_may_overlap(rt: HostRuntime) -> Result<(), Fail> {
    let tokens = [token(1, 1, 2), token(1, 0, 2)];
    let marks = [
        Mark::Char(0x62),
        Mark::Char(0x63),
        Mark::Char(0x61),
        Mark::Char(0x62),
    ];
    table(&rt, rt.alloc(), b"abc", &tokens, &marks, Ok(()))
}

#[test]
fn empty_parts(rt: HostRuntime) -> Result<(), Fail> {
    let tokens = [
        token(1, 3, 0),
        token(1, 0, 0),
        token(4, 3, 0),
        token(1, 0, 1),
        token(1, 1, 0),
    ];
    table(
        &rt,
        rt.alloc(),
        b"abc",
        &tokens,
        &[Mark::Word, Mark::Char(0x61)],
        Ok(()),
    )?;
    table(
        &rt,
        rt.alloc(),
        b"abc",
        &[token(1, 4, 0)],
        &[],
        source_fault(Ground::PartOutsideText, 0),
    )?;
    table(&rt, rt.alloc(), b"", &[], &[], Ok(()))
}

#[test]
fn a_part_outside_the_text(rt: HostRuntime) -> Result<(), Fail> {
    let marks = [Mark::Char(0x61)];
    table(
        &rt,
        rt.alloc(),
        b"abc",
        &[token(1, 0, 1), token(1, 1, 3)],
        &marks,
        source_fault(Ground::PartOutsideText, 1),
    )?;
    table(
        &rt,
        rt.alloc(),
        b"abc",
        &[token(1, 0, 1), token(4, 4, 0)],
        &marks,
        source_fault(Ground::PartOutsideText, 1),
    )?;
    let huge = token(2, 18446744073709551615, 18446744073709551615);
    table(
        &rt,
        rt.alloc(),
        b"abc",
        &[token(1, 0, 1), huge],
        &marks,
        source_fault(Ground::PartOutsideText, 1),
    )
}

#[test]
fn an_unknown_kind_goes_before_a_part_outside(rt: HostRuntime) -> Result<(), Fail> {
    table(
        &rt,
        rt.alloc(),
        b"abc",
        &[token(0, 0, 1)],
        &[],
        source_fault(Ground::UnknownKind, 0),
    )?;
    table(
        &rt,
        rt.alloc(),
        b"abc",
        &[token(5, 9, 9)],
        &[],
        source_fault(Ground::UnknownKind, 0),
    )?;
    table(
        &rt,
        rt.alloc(),
        b"abc",
        &[token(4294967295, 0, 1)],
        &[],
        source_fault(Ground::UnknownKind, 0),
    )
}

#[test]
fn a_blank_token_holds_blanks(rt: HostRuntime) -> Result<(), Fail> {
    table(
        &rt,
        rt.alloc(),
        b" a",
        &[token(2, 0, 0)],
        &[],
        source_fault(Ground::NotBlank, 0),
    )?;
    table(
        &rt,
        rt.alloc(),
        b" a",
        &[token(2, 3, 0)],
        &[],
        source_fault(Ground::PartOutsideText, 0),
    )?;
    table(
        &rt,
        rt.alloc(),
        b" a",
        &[token(2, 0, 2)],
        &[Mark::Blank(0x20)],
        source_fault(Ground::NotBlank, 0),
    )?;
    let marks = [Mark::Blank(0xA0), Mark::Blank(0x3000)];
    table(
        &rt,
        rt.alloc(),
        b"\xC2\xA0\xE3\x80\x80\x80",
        &[token(2, 0, 6)],
        &marks,
        source_fault(Ground::IllFormedUtf8, 5),
    )
}

#[test]
fn a_word_comes_before_its_ill_formed_character(rt: HostRuntime) -> Result<(), Fail> {
    table(
        &rt,
        rt.alloc(),
        b"a\xFF",
        &[token(4, 1, 1)],
        &[Mark::Word],
        source_fault(Ground::IllFormedUtf8, 1),
    )
}

#[test]
fn a_part_may_cut_a_character(rt: HostRuntime) -> Result<(), Fail> {
    table(
        &rt,
        rt.alloc(),
        b"a\xC3\xA9",
        &[token(1, 0, 2)],
        &[Mark::Char(0x61)],
        source_fault(Ground::IllFormedUtf8, 1),
    )?;
    table(
        &rt,
        rt.alloc(),
        b"a\xC3\xA9",
        &[token(1, 2, 1)],
        &[],
        source_fault(Ground::IllFormedUtf8, 2),
    )
}

#[test]
fn a_table_over_a_long_text_gives_nothing(rt: HostRuntime) -> Result<(), Fail> {
    let text = vec![in rt.alloc(); b'a'; 60_001]?;
    table(
        &rt,
        rt.alloc(),
        text.as_slice(),
        &[token(9, 0, 1)],
        &[],
        source_fault(Ground::LongText, 60_000),
    )?;
    table(
        &rt,
        rt.alloc(),
        text.as_slice(),
        &[],
        &[],
        source_fault(Ground::LongText, 60_000),
    )
}
