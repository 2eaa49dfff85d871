// Marks, the sources that give them, and the faults that a call ends with.
#![tactic(auto)]

mod choice;
pub mod close;
pub mod collect;
pub mod fault;
pub mod limits;
pub mod mark;
mod opened;
mod part;
pub mod source;
pub mod table;
pub mod text;
pub mod token;
mod token_kind;
pub mod words;
