// Layers over any source, which are stores where what they stand over are stores.
#![tactic(auto)]

mod answers;
pub mod join;
mod layer;
pub mod swap;
pub mod window;
