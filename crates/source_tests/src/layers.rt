// The blank layer: runs that are dropped and given, at their limit and before a fault.
use crate::given::{counts, gives, long_run, source_fault};
use blanks::layer::BlankLayer;
use marks::fault::{Fault, Ground};
use marks::mark::Mark;
use marks::table::TokenTable;
use marks::text::TextSource;
use marks::token::Token;
use std::alloc::{AllocError, Global};
use std::process::Abort;
use std::test::Fail;

const WORD_A: Token = Token {
    kind: 4,
    start: 0,
    length: 1,
};

const WORD_B: Token = Token {
    kind: 4,
    start: 1,
    length: 1,
};

const BLANK: Token = Token {
    kind: 2,
    start: 2,
    length: 1,
};

const LINE_END: Token = Token {
    kind: 3,
    start: 0,
    length: 0,
};

const TEXT: Token = Token {
    kind: 1,
    start: 2,
    length: 2,
};

// The layer over the tokens of `AB <` gives just these marks, and then closes so.
fn layer(
    rt: &impl Abort,
    heap: Global,
    tokens: &[Token],
    marks: &[Mark],
    close: Result<(), Fault>,
) -> Result<(), Fail> {
    let mut source = BlankLayer::new(TokenTable::new(b"AB <", tokens));
    gives(rt, heap, &mut source, marks, close)
}

#[test]
fn a_run_between_two_words_is_dropped(rt: HostRuntime) -> Result<(), Fail> {
    let tokens = [WORD_A, BLANK, LINE_END, BLANK, WORD_B, TEXT];
    let marks = [
        Mark::Word,
        Mark::WordChar(0x41),
        Mark::Word,
        Mark::WordChar(0x42),
        Mark::Char(0x20),
        Mark::Char(0x3C),
    ];
    layer(&rt, rt.alloc(), &tokens, &marks, Ok(()))
}

#[test]
fn any_other_run_is_given_whole(rt: HostRuntime) -> Result<(), Fail> {
    let tokens = [WORD_A, LINE_END, BLANK, LINE_END, TEXT];
    let marks = [
        Mark::Word,
        Mark::WordChar(0x41),
        Mark::Blank(0x20),
        Mark::Blank(0x20),
        Mark::Blank(0x20),
        Mark::Char(0x20),
        Mark::Char(0x3C),
    ];
    layer(&rt, rt.alloc(), &tokens, &marks, Ok(()))?;
    let at_end = [
        Mark::Word,
        Mark::WordChar(0x41),
        Mark::Blank(0x20),
        Mark::Blank(0x20),
    ];
    layer(&rt, rt.alloc(), &[WORD_A, BLANK, LINE_END], &at_end, Ok(()))
}

#[test]
fn line_ends_outside_a_run_become_blanks(rt: HostRuntime) -> Result<(), Fail> {
    let marks = [
        Mark::Blank(0x20),
        Mark::Char(0x20),
        Mark::Char(0x3C),
        Mark::Blank(0x20),
        Mark::Word,
        Mark::WordChar(0x41),
    ];
    layer(
        &rt,
        rt.alloc(),
        &[LINE_END, TEXT, LINE_END, WORD_A],
        &marks,
        Ok(()),
    )
}

#[test]
fn an_empty_text_token_parts_no_words(rt: HostRuntime) -> Result<(), Fail> {
    let empty = Token {
        kind: 1,
        start: 0,
        length: 0,
    };
    let marks = [
        Mark::Word,
        Mark::WordChar(0x41),
        Mark::Word,
        Mark::WordChar(0x42),
    ];
    layer(
        &rt,
        rt.alloc(),
        &[WORD_A, BLANK, empty, BLANK, WORD_B],
        &marks,
        Ok(()),
    )
}

#[test]
fn a_run_before_a_fault_is_given(rt: HostRuntime) -> Result<(), Fail> {
    let unknown = Token {
        kind: 0,
        start: 0,
        length: 0,
    };
    let marks = [Mark::Word, Mark::WordChar(0x41), Mark::Blank(0x20)];
    layer(
        &rt,
        rt.alloc(),
        &[WORD_A, BLANK, unknown],
        &marks,
        source_fault(Ground::UnknownKind, 2),
    )
}

#[test]
fn a_text_passes(rt: HostRuntime) -> Result<(), Fail> {
    let marks = [Mark::Char(0x61), Mark::Char(0x20)];
    gives(
        &rt,
        rt.alloc(),
        &mut BlankLayer::new(TextSource::new(b"a \xFF")),
        &marks,
        source_fault(Ground::IllFormedUtf8, 2),
    )
}

// A word of one character and a run of `count` blanks, which takes up the text, and then `last`, whose part is the word's.
fn run_before(
    rt: &impl Abort,
    heap: Global,
    count: usize,
    kind: u32,
    marks: usize,
    close: Result<(), Fault>,
) -> Result<(), Fail> {
    let text = blanks_after_a(heap, count)?;
    let run = Token {
        kind: 2,
        start: 1,
        length: count,
    };
    let last = Token {
        kind,
        start: 0,
        length: 1,
    };
    let tokens = [WORD_A, run, last];
    let mut source = BlankLayer::new(TokenTable::new(text.as_slice(), &tokens));
    counts(rt, heap, &mut source, marks, close)?;
    gives(rt, heap, &mut source, &[], close)
}

fn blanks_after_a(heap: Global, count: usize) -> Result<Vec<u8>, AllocError> {
    let mut text = vec![in heap; b' '; count]?;
    text.insert(0, b'A')?;
    Ok(text)
}

#[test]
fn a_run_of_1000_is_treated_as_any(rt: HostRuntime) -> Result<(), Fail> {
    run_before(&rt, rt.alloc(), 1000, 4, 4, Ok(()))?;
    run_before(&rt, rt.alloc(), 1000, 1, 1003, Ok(()))?;
    run_before(
        &rt,
        rt.alloc(),
        1000,
        9,
        1002,
        source_fault(Ground::UnknownKind, 2),
    )
}

#[test]
fn of_a_run_of_1001_nothing_is_given(rt: HostRuntime) -> Result<(), Fail> {
    run_before(&rt, rt.alloc(), 1001, 4, 2, long_run(2))?;
    run_before(&rt, rt.alloc(), 1001, 1, 2, long_run(2))?;
    run_before(&rt, rt.alloc(), 1001, 9, 2, long_run(2))
}

#[test]
fn a_layer_stands_over_a_layer(rt: HostRuntime) -> Result<(), Fail> {
    let tokens = [WORD_A, BLANK, WORD_B];
    let mut source = BlankLayer::new(BlankLayer::new(TokenTable::new(b"AB ", &tokens)));
    let marks = [
        Mark::Word,
        Mark::WordChar(0x41),
        Mark::Word,
        Mark::WordChar(0x42),
    ];
    gives(&rt, rt.alloc(), &mut source, &marks, Ok(()))
}
