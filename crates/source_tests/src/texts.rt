// The text source at its boundaries.
use crate::given::{counts, gives, source_fault};
use marks::fault::Ground;
use marks::mark::Mark;
use marks::text::TextSource;
use std::test::Fail;

#[test]
fn an_empty_text_ends(rt: HostRuntime) -> Result<(), Fail> {
    gives(&rt, rt.alloc(), &mut TextSource::new(b""), &[], Ok(()))
}

#[test]
fn characters_of_each_length_come_as_chars(rt: HostRuntime) -> Result<(), Fail> {
    let marks = [
        Mark::Char(0x61),
        Mark::Char(0xE9),
        Mark::Char(0x20AC),
        Mark::Char(0x1F600),
        Mark::Char(0x20),
    ];
    gives(
        &rt,
        rt.alloc(),
        &mut TextSource::new(b"a\xC3\xA9\xE2\x82\xAC\xF0\x9F\x98\x80 "),
        &marks,
        Ok(()),
    )
}

#[test]
fn ill_formed_bytes_close_where_no_character_begins(rt: HostRuntime) -> Result<(), Fail> {
    let marks = [Mark::Char(0xE9), Mark::Char(0x62)];
    gives(
        &rt,
        rt.alloc(),
        &mut TextSource::new(b"\xC3\xA9b\x80c"),
        &marks,
        source_fault(Ground::IllFormedUtf8, 3),
    )?;
    gives(
        &rt,
        rt.alloc(),
        &mut TextSource::new(b"\xC3\xA9b\xE2\x82"),
        &marks,
        source_fault(Ground::IllFormedUtf8, 3),
    )
}

#[test]
fn a_text_of_60000_bytes_is_read(rt: HostRuntime) -> Result<(), Fail> {
    let text = vec![in rt.alloc(); b'a'; 60_000]?;
    counts(
        &rt,
        rt.alloc(),
        &mut TextSource::new(text.as_slice()),
        60_000,
        Ok(()),
    )
}

#[test]
fn a_text_of_60001_bytes_gives_nothing(rt: HostRuntime) -> Result<(), Fail> {
    let text = vec![in rt.alloc(); b'a'; 60_001]?;
    gives(
        &rt,
        rt.alloc(),
        &mut TextSource::new(text.as_slice()),
        &[],
        source_fault(Ground::LongText, 60_000),
    )?;
    let ill = vec![in rt.alloc(); 0xFF; 60_001]?;
    gives(
        &rt,
        rt.alloc(),
        &mut TextSource::new(ill.as_slice()),
        &[],
        source_fault(Ground::LongText, 60_000),
    )
}
