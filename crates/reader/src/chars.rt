// The characters of a name or of an address in the making.
ghost use Rattle.std.specs.Prelude.{◌≡◌};
ghost use Rattle.characters.specs.WhiteSpace.{among};
ghost use Rattle.addresses.specs.Trim.{trim as trimmed};
ghost use Rattle.reader.specs.Ends.{LastOther};

use bounded::Bounded;
use characters::is_white_space;

pub type Chars = Bounded<u32, 2_000>;

const AT: u32 = '@' as u32;

#[tactic(auto, using(characters::proofs::Containing::among_contains))]
pub fn has_at(chars: &Chars) -> bool
    ensures { result ≡ among 64 chars.now }
{
    chars.as_slice().contains(&AT)
}

// Where the last character stands that is no White_Space.
fn last_other(row: &[u32]) -> Option<usize>
    ensures { LastOther row.now result }
{
    row.iter().rposition(|c| !is_white_space(*c))
}

// Takes the White_Space off the end.
pub fn trim(chars: &mut Chars)
    ensures { chars.new ≡ trimmed chars.old }
{
    let last = last_other(chars.as_slice());
    chars.truncate(last.map_or(0, |at| at + 1));
}
