// A list, or a fault, as JSON. It is written here, since serde_json gives some control characters by a letter and DEL
// bare, and the lines of this program give each by its number.
ghost use Rattle.std.specs.Iterator.{IsFinite};

use addresses::name_addr::NameAddr;
use mailboxes::list::MailboxList;
use marks::fault::Fault;
use std::alloc::AllocError;
use std::fmt;
use store::look::Look;

// Puts itself at the end of a string, as JSON. By `Display` a line took up to 2.7 times as long: a formatter checks and
// copies each character as a text of its own.
pub trait Json {
    fn put(&self, out: &mut String) -> Result<(), AllocError>;
}

impl<T: Json> Json for Option<T> {
    fn put(&self, out: &mut String) -> Result<(), AllocError> {
        match self {
            Some(value) => value.put(out),
            None => out.push_str("null"),
        }
    }
}

// A quote or a backslash gets a backslash before it; a control character goes by its number. Laid out in the loop that
// calls it: a call for each character took up to a tenth of a line's time.
#[inline(always)]
fn sign(c: char, out: &mut String) -> Result<(), AllocError> {
    match c {
        '"' => out.push_str("\\\""),
        '\\' => out.push_str("\\\\"),
        '\0'..='\x0f' => number("\\u000", c, out),
        '\x10'..='\x1f' => number("\\u001", c, out),
        '\x7f' => out.push_str("\\u007f"),
        _ => out.push(c),
    }
}

// The number's last digit goes after the others.
fn number(others: &str, c: char, out: &mut String) -> Result<(), AllocError> {
    out.push_str(others)?;
    match char::from_digit(u32::from(c) % 16, 16) {
        Some(last) => out.push(last),
        None => Ok(()),
    }
}

fn between_quotes<I: Iterator<Item = char>>(text: I, out: &mut String) -> Result<(), AllocError>
    requires can { I.can_next text }
    requires finite { IsFinite (I.remaining text) }
{
    out.push('"')?;
    for c in text {
        sign(c, out)?;
    }
    out.push('"')
}

#[derive(Clone, Copy)]
struct Text<'a>(&'a str);

impl Json for Text<'_> {
    fn put(&self, out: &mut String) -> Result<(), AllocError> {
        between_quotes(self.0.chars(), out)
    }
}

// A row of code points.
#[derive(Clone, Copy)]
struct Characters<'a>(&'a [u32]);

impl Json for Characters<'_> {
    fn put(&self, out: &mut String) -> Result<(), AllocError> {
        between_quotes(self.0.iter().filter_map(|code| char::from_u32(*code)), out)
    }
}

#[derive(Clone, Copy)]
struct Mailbox<'a>(NameAddr<'a, u32>);

impl Json for Mailbox<'_> {
    fn put(&self, out: &mut String) -> Result<(), AllocError> {
        out.push_str("{\"name\":")?;
        self.0.name.map(Characters).put(out)?;
        out.push_str(",\"address\":")?;
        Characters(self.0.addr).put(out)?;
        out.push('}')
    }
}

#[derive(Clone, Copy)]
struct Members<'a> {
    list: &'a MailboxList,
    entry: usize,
    members: usize,
}

impl Json for Members<'_> {
    fn put(&self, out: &mut String) -> Result<(), AllocError> {
        for j in 0..self.members {
            if j > 0 {
                out.push(',')?;
            }
            if let Ok(Look::Mailbox(mailbox)) = self.list.look(self.entry, Some(j)) {
                Mailbox(mailbox).put(out)?;
            }
        }
        Ok(())
    }
}

#[derive(Clone, Copy)]
struct Entries<'a>(&'a MailboxList);

impl Json for Entries<'_> {
    fn put(&self, out: &mut String) -> Result<(), AllocError> {
        let list = self.0;
        for entry in 0..list.count_entries() {
            if entry > 0 {
                out.push(',')?;
            }
            match list.look(entry, None) {
                Ok(Look::Mailbox(mailbox)) => Mailbox(mailbox).put(out)?,
                Ok(Look::Group { name, members }) => {
                    out.push_str("{\"group\":")?;
                    Characters(name).put(out)?;
                    out.push_str(",\"members\":[")?;
                    Members {
                        list,
                        entry,
                        members,
                    }
                    .put(out)?;
                    out.push_str("]}")?
                }
                Err(_) => {}
            }
        }
        Ok(())
    }
}

// A list with its written text.
#[derive(Clone, Copy)]
pub struct Listing<'a> {
    pub list: &'a MailboxList,
    pub written: Option<&'a str>,
}

impl Json for Listing<'_> {
    fn put(&self, out: &mut String) -> Result<(), AllocError> {
        out.push_str("{\"list\":[")?;
        Entries(self.list).put(out)?;
        out.push_str("],\"written\":")?;
        self.written.map(Text).put(out)?;
        out.push('}')
    }
}

// A fault by its numbers, and in words, in which no sign stands that JSON has to escape. It goes by whole texts and not by
// characters, so that `Display` serves here.
#[derive(Clone, Copy)]
pub struct Refusal(pub Fault);

impl fmt::Display for Refusal {
    fn fmt<W: fmt::Write>(&self, f: &mut fmt::Formatter<W>) -> fmt::Result {
        let fault = self.0;
        let layer = u8::from(fault.layer);
        let ground = u8::from(fault.ground);
        let place = fault.place;
        write!(
            f,
            "{{\"fault\":{{\"layer\":{layer},\"ground\":{ground},\"place\":{place},\"says\":\"{fault}\"}}}}"
        )
    }
}
