// The rows of a sheet as its table keeps them.
ghost use Rattle.std.specs.Prelude.{◌≡◌};
ghost use Rattle.sheet_text.specs.Columns.{number_in, span_in};

use super::word::{TypeWord, Word};

/// A part of the sheet's text. No slice: a row is kept without the text, in memory that a caller lends.
#[derive(Clone, Copy)]
pub struct Span {
    pub at: usize,
    pub len: usize,
}

/// What a column holds; a name by its place in the text.
#[derive(Clone, Copy)]
pub enum Column {
    Blank,
    Number(u64),
    Name(Span),
}

impl Column {
    /// The number that the column holds, if it holds one.
    pub fn number(self) -> Option<u64>
        ensures { result ≡ number_in self }
    {
        match self {
            Column::Number(n) => Some(n),
            Column::Blank | Column::Name(_) => None,
        }
    }

    /// Where the name stands that the column holds, if it holds one.
    pub fn name(self) -> Option<Span>
        ensures { result ≡ span_in self }
    {
        match self {
            Column::Name(span) => Some(span),
            Column::Blank | Column::Number(_) => None,
        }
    }
}

/// A row of a sheet: its word, and its columns as its line states them. Rows name other rows by number, as
/// the sheet does: the table of them is lent, and there is no heap for boxes. The four columns are no struct
/// of their own, though rules have four needs, too: every use would go through one more name.
#[derive(Clone, Copy)]
pub struct Row {
    pub word: Word,
    pub name: Column,
    pub one: Column,
    pub two: Column,
    pub three: Column,
}

impl Row {
    /// A row to fill a table with: void.
    pub const BLANK: Row = Row {
        word: Word::Type(TypeWord::Void),
        name: Column::Blank,
        one: Column::Blank,
        two: Column::Blank,
        three: Column::Blank,
    };
}
