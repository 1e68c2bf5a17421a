// What the rows of a checked sheet stand for, and what a reading of a message is: definitions in
// specs/, and the faults of evaluation and of laying.
#![tactic(auto)]

mod fault;

pub use fault::{EvalFault, LayFault};
