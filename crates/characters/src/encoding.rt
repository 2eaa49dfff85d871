// The bytes of a character, by RFC 3629.
ghost use Rattle.std.specs.Prelude.{◌≡◌, ◌+◌, ◌%◌};
ghost use Rattle.characters.specs.Encoding.{encoded};

// The bytes of the code point `c`, at the front of four, and their number; nothing where `c` is no scalar value.
pub fn encode(c: u32) -> Option<([u8; 4], usize)>
    ensures { result ≡ encoded c }
{
    if c < 0x80 {
        return Some(([c as u8, 0, 0, 0], 1));
    }
    if c < 0x800 {
        return Some(([(0xC0 + c / 64) as u8, tail(c), 0, 0], 2));
    }
    if (0xD800 <= c && c < 0xE000) || c >= 0x110000 {
        return None;
    }
    if c < 0x10000 {
        return Some(([(0xE0 + c / 4096) as u8, tail(c / 64), tail(c), 0], 3));
    }
    Some((
        [
            (0xF0 + c / 262144) as u8,
            tail(c / 4096),
            tail(c / 64),
            tail(c),
        ],
        4,
    ))
}

// The continuation byte of the lowest six bits.
fn tail(bits: u32) -> u8
    ensures { result ≡ 128 + bits % 64 }
{
    (0x80 + bits % 64) as u8
}
