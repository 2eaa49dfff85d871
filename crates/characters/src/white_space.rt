// The property White_Space of Unicode.
ghost use Rattle.std.specs.Prelude.{◌≡◌};
ghost use Rattle.characters.specs.WhiteSpace.{white, RangesHold};

pub fn is_white_space(c: u32) -> bool
    ensures answer { result ≡ white c }
    ensures ranges { RangesHold }
{
    matches!(
        c,
        0x0009..=0x000d
            | 0x0020
            | 0x0085
            | 0x00a0
            | 0x1680
            | 0x2000..=0x200a
            | 0x2028..=0x2029
            | 0x202f
            | 0x205f
            | 0x3000
    )
}
