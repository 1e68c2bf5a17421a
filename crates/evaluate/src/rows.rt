// The rows of a sheet and their columns.
ghost use Rattle.std.specs.Prelude.{◌≡◌};
ghost use Rattle.sheet.specs.Sheets.{rows_of};
ghost use Rattle.sheet.specs.Checks.{row_at};
ghost use Rattle.sheet_text.specs.Columns.{number_in};
ghost use Rattle.meaning.specs.Stands.{base_at};

use sheet::CheckedSheet;
use sheet_text::{Base, Column, Row, TypeWord, Word};

/// The row with a number. Past the last row it is void, as in the definitions, which need no case
/// for it.
pub fn row_at(sheet: &CheckedSheet<'_, '_>, row: usize) -> Row
    ensures { result ≡ row_at (rows_of sheet.now) row }
{
    match sheet.rows().get(row) {
        Some(found) => *found,
        None => Row::BLANK,
    }
}

/// The row that a column names, if it names one.
pub fn ref_in(column: Column) -> Option<usize>
    ensures { result ≡ number_in column }
{
    column.number().map(|n| n as usize)
}

/// The base word of a row, if it has one.
pub fn base_at(sheet: &CheckedSheet<'_, '_>, row: usize) -> Option<Base>
    ensures { result ≡ base_at (rows_of sheet.now) row }
{
    match row_at(sheet, row).word {
        Word::Type(TypeWord::Base(base)) => Some(base),
        _ => None,
    }
}
