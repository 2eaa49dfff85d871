// Bytes as text.
ghost use Rattle.std.specs.Prelude.{◌≡◌};
ghost use Rattle.std.specs.Option.{option_map};
ghost use Rattle.addresses.specs.Additions.{text_of, name_of};
ghost use Rattle.additions.specs.Steps.{text_in, name_in};

use marks::fault::{Fault, Ground, Layer};
use std::str;

pub(crate) fn as_text(bytes: &[u8]) -> Result<&str, Fault>
    ensures { text_in result ≡ text_of bytes.now }
{
    str::from_utf8(bytes).map_err(|e| Layer::List.fault(Ground::IllFormedUtf8, e.valid_up_to()))
}

pub(crate) fn as_name(bytes: Option<&[u8]>) -> Result<Option<&str>, Fault>
    ensures { name_in result ≡ name_of (option_map (λ x. x.now) bytes.entry) }
{
    bytes.map(as_text).transpose()
}
