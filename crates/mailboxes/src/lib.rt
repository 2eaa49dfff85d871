// Mailbox lists: read from a text or from any source, added to, cut down, questioned and written.
#![tactic(auto)]

pub mod list;
