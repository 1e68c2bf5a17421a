// Texts of sheets.
ghost use Rattle.std.specs.Prelude.{◌≡◌, length};
ghost use Rattle.sheet.specs.Sheets.{read_of};
ghost use Rattle.balskif.specs.Sheets.{SheetChecked, SheetRead};

use sheet::{CheckedSheet, read_sheet};
use sheet_text::{MAX_ROWS, Row, SheetRefusal};
use told::Told;

// The number of its rows, or its first fault.
pub(crate) fn check(text: &[u8]) -> Result<usize, SheetRefusal>
    ensures result { result ≡ (read_of text.now 256).result }
    ensures checks { SheetChecked text.now result }
{
    let mut table = [Row::BLANK; MAX_ROWS];
    read_sheet(text, &mut table)
}

// The sheet that a text states, over a row table for 256 rows.
pub(crate) fn read<'t, 'r>(
    text: &'t [u8],
    table: &'r mut [Row],
) -> Result<CheckedSheet<'t, 'r>, Told>
    requires { length table.old ≡ 256 }
    ensures { SheetRead text.now result }
{
    let n = read_sheet(text, table)?;
    let mut sheet = CheckedSheet::built_in();
    sheet.fill(text, &table[..n])?;
    Ok(sheet)
}
