// Reads the lines of a sheet into a row table.
ghost use Rattle.std.specs.Prelude.{◌≡◌, ◌<◌, ◌≤◌, true, length, min, IfOk};
ghost use Rattle.told.specs.Answers.{as_told};
ghost use Rattle.sheet_text.specs.Refusals.{sheet_told};
ghost use Rattle.sheet_text.specs.Rows.{lines_of, lines_from, laid};
ghost use Rattle.sheet_text.specs.LineFaults.{ReadsLines};

use super::cursor::Cursor;
use super::refusal::{Reason, SheetRefusal};
use super::row::Row;

// The first line of every sheet.
const HEADER: &[u8] = b"row,word,name,one,two,three\n";

/// The most rows that a sheet may have.
pub const MAX_ROWS: usize = 256;

/// Reads the rows that the lines of the text state into the first places of the table, and counts them.
/// At a refusal the rows of the lines ahead are in the table. Later places stay as they were.
pub fn read_rows(text: &[u8], table: &mut [Row]) -> Result<usize, SheetRefusal>
    ensures told { as_told sheet_told result ≡ as_told sheet_told (lines_of text.now (length table.old)).result }
    ensures result { result ≡ (lines_of text.now (length table.old)).result }
    ensures rows { table.new ≡ laid (lines_of text.now (length table.old)).rows table.old }
    ensures within { IfOk result (λ n. n ≤ length table.old) }
    ensures reads { ReadsLines text.now table.old table.new result }
{
    let Some(lines) = text.strip_prefix(HEADER) else {
        return Err(SheetRefusal {
            reason: Reason::Header,
            line: 1,
        });
    };
    if lines.is_empty() {
        return Err(SheetRefusal {
            reason: Reason::Count,
            line: 1,
        });
    }
    read_lines(Cursor::new(text, HEADER.len()), table)
}

// Reads the lines from a place on.
fn read_lines(mut lines: Cursor<'_>, table: &mut [Row]) -> Result<usize, SheetRefusal>
    ensures result { result ≡ (lines_from (min (length table.old) 256) lines.entry.text.now lines.entry.at 0).result }
    ensures rows { table.new ≡ laid (lines_from (min (length table.old) 256) lines.entry.text.now lines.entry.at 0).rows table.old }
    ensures within { IfOk result (λ n. n ≤ length table.old) }
{
    let room = table.len().min(MAX_ROWS);
    for (k, place) in table[..room].iter_mut().enumerate() {
        if lines.is_done() {
            return Ok(k);
        }
        *place = lines
            .row(k)
            .map_err(|reason| SheetRefusal::at_row(reason, k))?;
    }
    if lines.is_done() {
        Ok(room)
    } else {
        Err(SheetRefusal::at_row(Reason::Count, room))
    }
}
