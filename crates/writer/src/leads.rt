// What stands between the pieces, as bytes to be counted and put. Two leads, and no one with the sign as a parameter, since each
// is a promise of its own.
ghost use Rattle.std.specs.Prelude.{◌≡◌};
ghost use Rattle.std.proofs.Math.Utf8.{encodes};
ghost use Rattle.writer.specs.Pieces.{entry_lead, member_lead, closing as closed};

// What is put before an entry.
pub fn entry_lead(first: bool) -> &'static [u8]
    ensures { result.now ≡ encodes (entry_lead first) }
{
    if first { b"" } else { b", " }
}

// What is put before a member of a group.
pub fn member_lead(first: bool) -> &'static [u8]
    ensures { result.now ≡ encodes (member_lead first) }
{
    if first { b" " } else { b", " }
}

// What is put behind the last member of a group.
pub fn closing() -> &'static [u8]
    ensures { result.now ≡ encodes closed }
{
    b";"
}
