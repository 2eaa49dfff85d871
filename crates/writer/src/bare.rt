// Which addresses can be written without brackets.
ghost use Rattle.std.specs.Prelude.{◌≡◌, ◌==◌};
ghost use Rattle.addresses.specs.Signs.{at_sign};
ghost use Rattle.addresses.specs.Bare.{begins, follows, follow, bare};

use crate::signs::{AT, COLON, COMMA, OPEN_BRACKET, OPEN_PAREN, QUOTE, SEMICOLON};
use characters::is_white_space;

fn may_begin(c: u32) -> bool
    ensures { result ≡ begins c }
{
    !matches!(c, COMMA | QUOTE | OPEN_BRACKET | SEMICOLON | OPEN_PAREN) && !is_white_space(c)
}

fn may_follow(seen: bool, c: u32) -> bool
    ensures { result ≡ follows seen c }
{
    match c {
        OPEN_BRACKET | COMMA | SEMICOLON | OPEN_PAREN => false,
        // a colon before the @ would open a group
        COLON => seen,
        _ => true,
    }
}

fn all_follow(first: u32, rest: &[u32]) -> bool
    ensures { result ≡ follow (at_sign == first) rest.now }
{
    let mut seen = first == AT;
    for c in rest {
        if !may_follow(seen, *c) {
            return false;
        }
        seen |= *c == AT;
    }
    true
}

pub fn is_bare(addr: &[u32]) -> bool
    ensures { result ≡ bare addr.now }
{
    let Some((first, rest)) = addr.split_first() else {
        return false;
    };
    let last = rest.last().unwrap_or(first);
    may_begin(*first) && all_follow(*first, rest) && !is_white_space(*last)
}
