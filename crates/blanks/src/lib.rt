// The blank layer: over any source of marks it drops the blanks between two encoded words.
#![tactic(auto)]

mod blank;
mod gather;
mod held;
pub mod layer;
mod run;
mod state;
