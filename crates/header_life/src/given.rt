// What the task is given: a header, the changes that its holder makes, the header's last mailbox as tokens, and a header
// that came in damaged.
use addresses::name_addr::NameAddr;
use life::event::{Addition, Event, Part};
use marks::token::{BLANKS, ENCODED_WORD, RAW_LINE_END, TEXT, Token};

pub const HEADER: &str =
    "Friends: ann@example.org, \"Bob\" <bob@example.net>, carl@example.com (on leave);, Jürgen Klein <jk@example.org>";

// A comma is missing.
pub const DAMAGED: &str = "ann@example.org, <bob@example.net> carl@example.com";

pub const CHANGES: &[Event<'static>] = &[
    Event::Remove(Part {
        entry: 0,
        member: Some(1),
    }),
    Event::Add(Addition::Mailbox(NameAddr {
        name: Some(b"Dot \"\\\" Dash"),
        addr: b"dot@example.com",
    })),
    Event::Add(Addition::Mailbox(NameAddr {
        name: None,
        addr: b"a,b>@c",
    })),
    Event::Remove(Part {
        entry: 7,
        member: None,
    }),
];

// A header reader found `=?UTF-8?Q?J=C3=BCrgen?=`, a folded line, `=?UTF-8?Q?_Klein?=` and ` <jk@example.org>`.
pub const DECODED: &str = "Jürgen Klein <jk@example.org>";

// As in `nukorihe`: two programs, and no crate below both is the place for a sample.
pub const TOKENS: &[Token] = &[
    Token {
        kind: ENCODED_WORD,
        start: 0,
        length: 7,
    },
    Token {
        kind: RAW_LINE_END,
        start: 0,
        length: 0,
    },
    Token {
        kind: BLANKS,
        start: 7,
        length: 1,
    },
    Token {
        kind: ENCODED_WORD,
        start: 7,
        length: 6,
    },
    Token {
        kind: TEXT,
        start: 13,
        length: 17,
    },
];
