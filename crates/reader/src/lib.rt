// The reader: a machine of ten states that turns the marks of any source into a list.
#![tactic(auto)]

mod chars;
mod draft;
pub mod machine;
mod nesting;
mod state;
