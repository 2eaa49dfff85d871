// Runs of the decoder, the sources and the blank layer at their boundaries.
#![tactic(auto)]

#[cfg(test)]
mod given;
#[cfg(test)]
mod layers;
#[cfg(test)]
mod single_characters;
#[cfg(test)]
mod tables;
#[cfg(test)]
mod texts;
