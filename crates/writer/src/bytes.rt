// Bytes, put at a place of a buffer: whole, or not at all.
ghost use Rattle.std.specs.Prelude.{◌≡◌, length, Some};
ghost use Rattle.writer.specs.Placing.{behind, placed};

pub fn put_bytes(out: &mut [u8], at: usize, bytes: &[u8]) -> Option<usize>
    ensures answer { result ≡ behind (length out.old) at (Some bytes.now) }
    ensures buffer { out.new ≡ placed out.old at (Some bytes.now) }
{
    let end = at.checked_add(bytes.len())?;
    if end > out.len() {
        return None;
    }
    out[at..end].copy_from_slice(bytes);
    Some(end)
}
