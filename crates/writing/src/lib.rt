// A stored list as text: how many bytes it takes, and the bytes, put into a lent buffer.
#![tactic(auto)]

mod counter;
mod page;
mod pieces;
mod stage;
mod step;
mod text;

pub use text::{ShortBuffer, text_length, write_text};
