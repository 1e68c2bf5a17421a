// The listing of an input: its text as a function of the input's bytes.
#![tactic(auto)]

ghost use Rattle.std.specs.Prelude.{◌≡◌, ◌≤◌, length, map};
ghost use Rattle.line.specs.Fills.{Appends};
ghost use Rattle.line.specs.Text.{Appended};
ghost use Rattle.cells.specs.Captured.{opened};
ghost use Rattle.sheet_text.specs.Rows.{laid as in_table};
ghost use Rattle.sheet.specs.Keeps.{Keeps};
ghost use Rattle.sheet.specs.Sheets.{read_of, rows_of, text_of};
ghost use Rattle.meaning.specs.Laying.{laid_in};
ghost use Rattle.meaning.specs.Terms.{pieces_of};
ghost use Rattle.reading.specs.Calls.{said};
ghost use Rattle.reading.specs.Outcomes.{laid_over};
ghost use Rattle.input.specs.Parts.{sheet_text, capture_text};
ghost use Rattle.listing.specs.Lines.{fault, lines_of, left, left_by, message_text, of_message};
ghost use Rattle.listing.specs.Lines.{whole_text, listing};
ghost use Rattle.listing.specs.Said.{said_text};

use answers::Answers;
use cells::capture::Capture;
use cells::source::Source;
use found::{Laying, Refused};
use input::{INPUT_MAX, Input};
use line::{Full, Line};
use path::Piece;
use reading::{Answer, Laid, lay};
use sheet::{CheckedSheet, read_sheet};
use sheet_text::{MAX_ROWS, Row};
use told::Told;

mod answers;
mod found;
mod part;
mod rows;

/// No listing of an input is longer, with a piece list of `PIECES_MAX` places.
pub const LISTING_MAX: usize = 262_144;
/// How many pieces a listing has at most.
pub const PIECES_MAX: usize = 512;

/// Appends a line for each answer, or refuses and changes nothing.
pub fn write_answers(answers: &[Answer], out: &mut Line<'_>) -> Result<(), Full>
    ensures { Appends out.old (whole_text (map said_text (map said answers.now))) result out.new }
{
    out.push(&Answers { answers })
}

/// Appends the two lines of a refusal, or refuses and changes nothing.
pub fn write_fault(told: Told, out: &mut Line<'_>) -> Result<(), Full>
    ensures { Appends out.old (whole_text (lines_of (fault told))) result out.new }
{
    out.push(&Refused { told })
}

/// Appends the listing of a message by a sheet, or refuses and changes nothing in the line. The
/// pieces stand first in the list afterwards, as far as they were placed.
pub fn write_message<S: Source>(
    sheet: &CheckedSheet<'_, '_>,
    source: &S,
    pieces: &mut [Piece],
    out: &mut Line<'_>,
) -> Result<(), Full>
    ensures value { Appends out.old
        (message_text (text_of sheet.now) (rows_of sheet.now) (length pieces.old)
        (S.Source.cells source.now)) result out.new }
    ensures entries { pieces_of pieces.new
        ≡ laid_over
        (laid_in (text_of sheet.now) (rows_of sheet.now) (S.Source.cells source.now)
        (length pieces.old)) (pieces_of pieces.old) }
    ensures fits { length pieces.old ≤ PIECES_MAX → length (S.Source.cells source.now) ≤ 30000
        → length (message_text (text_of sheet.now) (rows_of sheet.now) (length pieces.old)
        (S.Source.cells source.now)) ≤ LISTING_MAX }
{
    match lay(sheet, source, pieces, &mut Laid::nothing()) {
        Ok(cover) => out.push(&Laying {
            sheet,
            source,
            pieces: &pieces[..cover.pieces],
            covered: cover.width,
        }),
        Err(refusal) => out.push(&Refused {
            told: Told::from(refusal),
        }),
    }
}

// The same of the message in a capture.
fn write_capture(
    sheet: &CheckedSheet<'_, '_>,
    capture: &[u8],
    pieces: &mut [Piece],
    out: &mut Line<'_>,
) -> Result<(), Full>
    ensures value { Appends out.old
        (whole_text
        (lines_of
        (of_message (text_of sheet.now) (rows_of sheet.now) (length pieces.old)
        (opened capture.now)))) result out.new }
    ensures entries { pieces_of pieces.new
        ≡ left_by (text_of sheet.now) (rows_of sheet.now) (length pieces.old) (pieces_of pieces.old)
        (opened capture.now) }
    ensures fits { length pieces.old ≤ PIECES_MAX → length capture.now ≤ INPUT_MAX
        → length (whole_text
        (lines_of
        (of_message (text_of sheet.now) (rows_of sheet.now) (length pieces.old)
        (opened capture.now)))) ≤ LISTING_MAX }
{
    match Capture::open(capture) {
        Ok(source) => write_message(sheet, &source, pieces, out),
        Err(fault) => out.push(&Refused {
            told: Told::from(fault),
        }),
    }
}

// The same by rows that were read and keep every rule.
fn write_rows(
    text: &[u8],
    rows: &[Row],
    capture: &[u8],
    pieces: &mut [Piece],
    out: &mut Line<'_>,
) -> Result<(), Full>
    requires { Keeps text.now rows.now }
    ensures value { Appends out.old
        (whole_text
        (lines_of (of_message text.now rows.now (length pieces.old) (opened capture.now)))) result
        out.new }
    ensures entries { pieces_of pieces.new
        ≡ left_by text.now rows.now (length pieces.old) (pieces_of pieces.old)
        (opened capture.now) }
    ensures fits { length pieces.old ≤ PIECES_MAX → length capture.now ≤ INPUT_MAX
        → length (whole_text
        (lines_of (of_message text.now rows.now (length pieces.old) (opened capture.now)))) ≤
        LISTING_MAX }
{
    let mut sheet = CheckedSheet::built_in();
    let Ok(()) = sheet.fill(text, rows) else {
        unreachable!();
    };
    write_capture(&sheet, capture, pieces, out)
}

/// Appends the listing of an input, or refuses and changes nothing in the line. The rows of the
/// sheet stand in the table afterwards, as far as they were read, and the pieces in the list, as
/// far as they were placed.
pub fn write_listing(
    bytes: &[u8],
    table: &mut [Row],
    pieces: &mut [Piece],
    out: &mut Line<'_>,
) -> Result<(), Full>
    ensures value { Appended out.old
        (listing (length table.old) (length pieces.old) bytes.now) result out.new }
    ensures entries { pieces_of pieces.new
        ≡ left (length table.old) (length pieces.old) (pieces_of pieces.old) (sheet_text bytes.now)
        (capture_text bytes.now) }
    ensures rows { table.new ≡ in_table (read_of (sheet_text bytes.now) (length table.old)).rows
        table.old }
    ensures lender { out.new.places.ghost_name ≡ out.old.places.ghost_name }
    ensures fits { length pieces.old ≤ PIECES_MAX
        → length (listing (length table.old) (length pieces.old) bytes.now) ≤ LISTING_MAX }
{
    let input = Input::of(bytes);
    match read_sheet(input.sheet, table) {
        Ok(n) => write_rows(input.sheet, &table[..n], input.capture, pieces, out),
        Err(refusal) => out.push(&Refused {
            told: Told::from(refusal),
        }),
    }
}

/// The same with a row table of its own, for 256 rows, and a piece list of 512 places.
pub fn list(bytes: &[u8], out: &mut Line<'_>) -> Result<(), Full>
    ensures value { Appended out.old (listing 256 512 bytes.now) result out.new }
    ensures lender { out.new.places.ghost_name ≡ out.old.places.ghost_name }
    ensures fits { length (listing 256 512 bytes.now) ≤ LISTING_MAX }
    ensures max { LISTING_MAX ≡ 262144 }
{
    let mut table = [Row::BLANK; MAX_ROWS];
    let mut pieces = [Piece::blank(); PIECES_MAX];
    write_listing(bytes, &mut table, &mut pieces, out)
}
