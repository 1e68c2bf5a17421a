// One walk over the open rows of a sheet, whatever the message, and whatever is done with a base
// row.
#![tactic(auto)]

mod bases;
pub mod comparing;
mod fault;
mod frames;
mod parts;
pub mod placer;
mod quiet;
pub mod recording;
#[cfg(test)]
mod tests;
mod walker;
mod walking;

pub use fault::Halt;
pub use walking::walk;
