// The life of a list: rows of events on it, with their answers.
#![tactic(auto)]

pub mod answer;
mod call;
pub mod event;
pub mod quoted;
pub mod row;
pub mod turn;
mod words;
