// The character at a place of a text, for those that walk one.
ghost use Rattle.std.specs.Prelude.{◌≡◌, drop};
ghost use Rattle.characters.specs.Decoding.{decoded};

use crate::decoding::decode;

// Most mail is ASCII, so that is tested before the decoder is called.
pub fn character_at(text: &[u8], at: usize) -> Option<(u32, usize)>
    ensures { result ≡ decoded (drop at text.now) }
{
    match text.get(at) {
        Some(&byte) if byte < 128 => Some((u32::from(byte), 1)),
        _ => decode(text, at),
    }
}
