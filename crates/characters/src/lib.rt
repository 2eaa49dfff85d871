// Characters: UTF-8 as RFC 3629 has it, and the property White_Space of Unicode.
#![tactic(auto)]

mod character;
mod decoding;
mod encoding;
mod white_space;

pub use character::character_at;
pub use decoding::decode;
pub use encoding::encode;
pub use white_space::is_white_space;
