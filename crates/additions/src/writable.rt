// Which addresses can be written, in brackets or bare.
ghost use Rattle.std.specs.Prelude.{◌≡◌};
ghost use Rattle.std.specs.Option.{option_map};
ghost use Rattle.addresses.specs.Fine.{writable};

use addresses::name_addr::NameAddr;
use writer::{CLOSE_BRACKET, is_bare};

// An address with `>` cannot stand in brackets, so it has to be bare; and behind a name there are always brackets.
#[tactic(auto, using(characters::proofs::Containing::among_contains))]
pub(crate) fn is_writable(mailbox: NameAddr<'_, u32>) -> bool
    ensures { result ≡ writable (option_map (λ x. x.now) mailbox.entry.name) mailbox.entry.addr.now }
{
    let in_brackets = !mailbox.addr.contains(&CLOSE_BRACKET);
    in_brackets || mailbox.name.is_none() && is_bare(mailbox.addr)
}
