// Address lists as definitions, and the laws that hold of them.
#![tactic(auto)]

pub mod edits;
pub mod joins;
pub mod life;
pub mod lists;
pub mod name_addr;
pub mod readings;
pub mod samples;
