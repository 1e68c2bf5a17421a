// What a line of a sheet holds.
ghost use Rattle.std.specs.Prelude.{◌≡◌, ℕ, Some};
ghost use Rattle.sheet_text.specs.Values.{meaning};
ghost use Rattle.sheet_text.specs.Lines.{column_from, line_view};
ghost use Rattle.sheet_text.specs.Rows.{stated, row_from};

use super::refusal::Reason;
use super::row::{Column, Row, Span};
use super::token::Token;

/// A value of a line, and where it stands.
#[derive(Clone, Copy)]
pub struct Part<'t> {
    pub token: Token<'t>,
    pub at: usize,
}

impl Part<'_> {
    /// The value as a row keeps it.
    pub(crate) fn column(self) -> Column
        ensures { result ≡ column_from self.entry.at (meaning self.entry.token) }
    {
        match self.token {
            Token::Name(bytes) => Column::Name(Span {
                at: self.at,
                len: bytes.len(),
            }),
            Token::Number(n) => Column::Number(n),
            Token::Blank => Column::Blank,
        }
    }
}

/// The six values of a line, the last four as a row keeps them.
#[derive(Clone, Copy)]
pub struct Line<'t> {
    pub number: Token<'t>,
    pub word: Token<'t>,
    pub name: Column,
    pub one: Column,
    pub two: Column,
    pub three: Column,
}

impl Line<'_> {
    /// The row that the line states as row k.
    pub(crate) fn row(self, k: usize) -> Result<Row, Reason>
        ensures { (next : ℕ) → stated next result ≡ row_from k (Some (line_view next self.entry)) }
    {
        if !self.number.is_number(k) {
            return Err(Reason::Line);
        }
        let word = self.word.word().ok_or(Reason::Word)?;
        Ok(Row {
            word,
            name: self.name,
            one: self.one,
            two: self.two,
            three: self.three,
        })
    }
}
