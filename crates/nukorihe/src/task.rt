// The task: one header as text, the same header as tokens with two encoded words, bare and through the blank layer,
// and then a damaged text and a damaged row of tokens.
use crate::show::source;
use blanks::layer::BlankLayer;
use marks::table::TokenTable;
use marks::text::TextSource;
use marks::token::{BLANKS, ENCODED_WORD, RAW_LINE_END, TEXT, Token};

// A header reader found `=?UTF-8?Q?J=C3=BCrgen?=`, a folded line, `=?UTF-8?Q?_Klein?=` and ` <jk@example.org>`.
const DECODED: &[u8] = b"J\xC3\xBCrgen Klein <jk@example.org>";

// As in `header_life`: two programs, and no crate below both is the place for a sample.
const TOKENS: &[Token] = &[
    Token {
        kind: ENCODED_WORD,
        start: 0,
        length: 7,
    },
    Token {
        kind: RAW_LINE_END,
        start: 0,
        length: 0,
    },
    Token {
        kind: BLANKS,
        start: 7,
        length: 1,
    },
    Token {
        kind: ENCODED_WORD,
        start: 7,
        length: 6,
    },
    Token {
        kind: TEXT,
        start: 13,
        length: 17,
    },
];

// The second token has a kind that there is not.
const DAMAGED: &[Token] = &[
    Token {
        kind: ENCODED_WORD,
        start: 0,
        length: 7,
    },
    Token {
        kind: 9,
        start: 7,
        length: 1,
    },
];

pub fn task(rt: &HostRuntime) -> anyhow::Result<()> {
    let text = TextSource::new(b"a@b, Caf\xC3\xA9 <c@d>");
    source(rt, "A header as text", text)?;
    let tokens = TokenTable::new(DECODED, TOKENS);
    source(rt, "A header as tokens", tokens)?;
    let layer = BlankLayer::new(TokenTable::new(DECODED, TOKENS));
    source(rt, "The same through the blank layer", layer)?;
    let damaged = TextSource::new(b"a@b, \xC3(c@d)");
    source(rt, "A damaged text", damaged)?;
    let layer = BlankLayer::new(TokenTable::new(DECODED, DAMAGED));
    source(rt, "A damaged row of tokens", layer)
}
