// At most 2,000 characters, in memory that is taken once.
ghost use Rattle.std.specs.Prelude.{◌≡◌, ◌≤◌, length, OnOk};
ghost use Rattle.std.specs.Result.{is_ok};
ghost use Rattle.std.specs.Str.{chars};
ghost use Rattle.addresses.specs.Limits.{short};

use bounded::{Bounded, Full};

// as long as the reader's `Chars`; no crate below both has a name for such a row
pub(crate) type Row = Bounded<u32, 2_000>;

// Puts the characters of `text` into `row` in place of its own, if there is room for them. Where there is none, the row
// holds the first of them.
pub(crate) fn fill(row: &mut Row, text: &str) -> Result<(), Full>
    ensures room { is_ok result ≡ short (chars text.now) }
    ensures after { OnOk result (row.new ≡ chars text.now) }
    ensures few { length row.new ≤ 2000 }
{
    row.clear();
    for c in text.chars() {
        row.push(u32::from(c))?;
    }
    Ok(())
}
