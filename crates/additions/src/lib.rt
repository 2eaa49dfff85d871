// A name and an address as an addition to a list is given them: decoded from bytes, and judged.
#![tactic(auto)]

pub mod addend;
mod row;
mod text;
mod writable;
