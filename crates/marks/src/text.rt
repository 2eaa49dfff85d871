// The text source: each character of a text is a Char.
ghost use Rattle.std.specs.Prelude.{◌≡◌, length};
ghost use Rattle.marks.specs.Texts.{readable};

pub mod walk;

#[derive(Drop)]
pub struct TextSource<'a> {
    text: &'a [u8],
    // the byte that is read next; an index and no iterator, since a fault names it
    at: usize,
    // where reading stops: the text's length, or 0 where the text is too long. A number beside the whole text, since its length
    // decides the close
    end: usize,
    ghost stops: { end ≡ readable (length text.now) },
}
