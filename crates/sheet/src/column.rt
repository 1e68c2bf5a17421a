// What the columns of a row name.
ghost use Rattle.std.specs.Prelude.{◌≡◌, length, take, drop};
ghost use Rattle.sheet.specs.Checks.{target};
ghost use Rattle.sheet.specs.Fields.{name_in};

use sheet_text::{Column, Span};

/// The row that a column names, where it names one, and else 0: no column names row 0.
pub fn target(column: Column) -> usize
    ensures { result ≡ target column }
{
    column.number().unwrap_or(0) as usize
}

// The part of the text, as far as the text goes.
pub(crate) fn part(text: &[u8], span: Span) -> &[u8]
    ensures { result.now ≡ take span.len (drop span.at text.now) }
{
    let rest = text.get(span.at..).unwrap_or(b"");
    rest.get(..span.len).unwrap_or(rest)
}

/// The bytes of a column's name.
pub fn name_of(text: &[u8], column: Column) -> &[u8]
    ensures { result.now ≡ name_in text.now column }
{
    match column.name() {
        Some(span) => part(text, span),
        None => b"",
    }
}
