// The record behind a list of mailboxes: lengths in order, and one shared row of characters.
#![tactic(auto)]

pub mod look;
mod measures;
mod parts;
mod place;
mod records;
mod rows;
pub mod store;
