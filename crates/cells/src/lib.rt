// Cells, sources of them, stores that can be written, and the bottoms: bytes, words and captures.
#![tactic(auto)]

pub mod bytes;
pub mod capture;
pub mod cell;
pub mod change;
mod hex;
mod lent;
pub mod patched;
pub mod source;
pub mod view;
pub mod words;
