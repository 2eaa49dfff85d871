// The character that stands at a place of a text, by RFC 3629.
ghost use Rattle.std.specs.Prelude.{◌≡◌, ◌-◌, ◌<◌, ◌≤◌, drop, Some};
ghost use Rattle.characters.specs.Decoding.{decoded, six, bits, checked, Front};

// The code point that begins at `at` and the number of its bytes, if a character begins there.
pub fn decode(text: &[u8], at: usize) -> Option<(u32, usize)>
    ensures answer { result ≡ decoded (drop at text.now) }
    ensures stands { Front (drop at text.now) result }
{
    front(text.get(at..)?)
}

// The character at the front of `bytes`. The one bits that lead its first byte tell its length.
fn front(bytes: &[u8]) -> Option<(u32, usize)>
    ensures { result ≡ decoded bytes.now }
{
    let first = *bytes.first()?;
    match first.leading_ones() {
        0 => Some((u32::from(first), 1)),
        2 => long(bytes, u32::from(first) - 0xC0, 2, 0x80),
        3 => long(bytes, u32::from(first) - 0xE0, 3, 0x800),
        4 => long(bytes, u32::from(first) - 0xF0, 4, 0x10000),
        _ => None,
    }
}

// The six bits of the continuation byte at `k`, if one stands there.
fn continuation(bytes: &[u8], k: usize) -> Option<u32>
    ensures { result ≡ six bytes.now k }
{
    match *bytes.get(k)? {
        byte @ 0x80..=0xBF => Some(u32::from(byte) - 0x80),
        _ => None,
    }
}

// Refuses overlong forms, surrogates and what lies above U+10FFFF.
fn character(c: u32, least: u32, length: usize) -> Option<(u32, usize)>
    ensures { result ≡ checked length least (Some c) }
{
    (c >= least && char::from_u32(c).is_some()).then_some((c, length))
}

// A character of more than one byte: the first holds its bits `high`, and each that follows six more.
fn long(bytes: &[u8], high: u32, length: usize, least: u32) -> Option<(u32, usize)>
    requires { (high < 32) × (1 ≤ length) × (length ≤ 4) }
    ensures { result ≡ checked length least (bits high bytes.now (length - 1)) }
{
    let mut c = high;
    for k in 1..length {
        c = c * 64 + continuation(bytes, k)?;
    }
    character(c, least, length)
}
