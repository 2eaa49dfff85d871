// The written text of a list, piece by piece: how many bytes a piece takes, and the bytes, put into a lent buffer.
#![tactic(auto)]

mod bare;
mod bytes;
mod counter;
mod escaping;
mod leads;
mod lengths;
mod page;
mod putting;
mod room;
mod signs;
mod sink;
mod spell;
mod text;

pub use bare::is_bare;
pub use bytes::put_bytes;
pub use counter::Counter;
pub use leads::{closing, entry_lead, member_lead};
pub use lengths::{mailbox_length, opening_length};
pub use page::Page;
pub use putting::{put_mailbox, put_opening};
pub use signs::{AT, CLOSE_BRACKET};
pub use sink::{Refused, Sink};
pub use spell::{spell_mailbox, spell_opening};
