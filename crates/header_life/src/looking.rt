// What a look shows, in words.
use life::quoted::Quoted;
use std::fmt;
use store::look::Look;

#[derive(Clone, Copy)]
pub struct Seen<'a>(pub Look<'a>);

impl fmt::Display for Seen<'_> {
    fn fmt<W: fmt::Write>(&self, f: &mut fmt::Formatter<W>) -> fmt::Result {
        match self.0 {
            Look::Mailbox(mailbox) => {
                if let Some(name) = mailbox.name {
                    write!(f, "name {}, ", Quoted(name))?;
                }
                write!(f, "address {}", Quoted(mailbox.addr))
            }
            Look::Group { name, .. } => write!(f, "name {}", Quoted(name)),
        }
    }
}
