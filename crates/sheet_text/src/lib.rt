// The text of format sheets: values, words, lines, and the rows that the lines state.
#![tactic(auto)]

mod cursor;
mod line;
mod refusal;
mod row;
mod rows;
mod token;
mod word;

pub use refusal::{Reason, SheetRefusal};
pub use row::{Column, Row, Span};
pub use rows::{MAX_ROWS, read_rows};
pub use token::{LIMIT, is_name, read_number};
pub use word::{Base, NumberWord, StepWord, TruthWord, TypeWord, Word};
