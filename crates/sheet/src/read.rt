// Reads a sheet.
ghost use Rattle.std.specs.Prelude.{◌≡◌, length};
ghost use Rattle.told.specs.Answers.{as_told};
ghost use Rattle.sheet_text.specs.Refusals.{sheet_told};
ghost use Rattle.sheet_text.specs.Rows.{laid};
ghost use Rattle.sheet.specs.Readings.{Reads};
ghost use Rattle.sheet.specs.Sheets.{read_of};

use super::draft::Draft;
use sheet_text::{Row, SheetRefusal, read_rows};

/// Reads the rows that the lines of the text state into the first places of the table, checks them, and counts them.
/// Where a line is refused the rows of the lines ahead are in the table, otherwise all rows. Later places stay as they were.
pub fn read_sheet(text: &[u8], table: &mut [Row]) -> Result<usize, SheetRefusal>
    ensures told { as_told sheet_told result ≡ as_told sheet_told (read_of text.now (length table.old)).result }
    ensures result { result ≡ (read_of text.now (length table.old)).result }
    ensures rows { table.new ≡ laid (read_of text.now (length table.old)).rows table.old }
    ensures reads { Reads text.now table.old table.new result }
{
    let n = read_rows(text, table)?;
    Draft {
        text,
        rows: &table[..n],
    }
    .check()?;
    Ok(n)
}
