// The rules of format sheets, and sheets that keep them.
#![tactic(auto)]

mod checked;
mod column;
mod depth;
mod draft;
mod names;
mod read;
mod rule;

pub use checked::CheckedSheet;
pub use column::{name_of, target};
pub use read::read_sheet;
