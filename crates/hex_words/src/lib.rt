// Words of a line of text: where they end, and the bytes and numbers that they say in hexadecimal.

#![tactic(auto)]

mod digits;
mod split;

pub use digits::{is_bytes, is_number, number, unhex};
pub use split::{cut, same};
