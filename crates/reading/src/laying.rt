// Laying a sheet over a message, and lifting it again.
ghost use Rattle.std.specs.Prelude.{◌≡◌, ◌≤◌, ℕ, List, None, length, take, drop};
ghost use Rattle.cells.specs.declared.cell.Cell.{Cell};
ghost use Rattle.sheet.specs.Sheets.{rows_of, text_of};
ghost use Rattle.sheet_text.specs.declared.row.Row.{Row};
ghost use Rattle.meaning.specs.Laying.{laid_in, laid_told};
ghost use Rattle.meaning.specs.Terms.{pieces_of};
ghost use Rattle.meaning.specs.Readings.{OneReading};
ghost use Rattle.path.specs.declared.Piece.{Piece};
ghost use Rattle.reading.specs.Lays.{LaysReading};
ghost use Rattle.reading.specs.Calls.{lay_said};
ghost use Rattle.reading.specs.Outcomes.{Placed, count_of, cover_told};
ghost use Rattle.reading.specs.Outcomes.{laid_by, laid_over, pieces_in};
ghost use Rattle.reading.specs.States.{state_of};
ghost use Rattle.reading.specs.Steps.{Made};
ghost use Rattle.reading.specs.Steps as steps;

use crate::Laid;
use crate::answers::Cover;
use crate::refusals::LayRefusal;
use cells::source::Source;
use evaluate::message::BySheet;
use list::BoundedList;
use path::Piece;
use sheet::CheckedSheet;
use walk::recording::Recording;
use walk::walk;

// Places the pieces of the matcher in the list.
fn place_pieces<S: Source>(
    sheet: &CheckedSheet<'_, '_>,
    source: &S,
    pieces: &mut [Piece],
) -> Result<Cover, LayRefusal>
    ensures placed { Placed
        (laid_in (text_of sheet.now) (rows_of sheet.now) (S.Source.cells source.now)
        (length pieces.old))
        (pieces_of (take (count_of result) pieces.new)) result }
    ensures rest { drop (count_of result) pieces.new ≡ drop (count_of result) pieces.old }
    ensures room { count_of result ≤ length pieces.old }
{
    let mut list = BoundedList::new(pieces);
    let message = BySheet { sheet, source };
    let answer = walk(sheet, &message, &Recording::of(&message), &mut list);
    let count = list.len();
    match answer {
        Ok(width) => Ok(Cover {
            pieces: count,
            width,
        }),
        Err(halt) => Err(LayRefusal {
            fault: halt.fault,
            row: halt.row,
            place: halt.place,
            pieces: count,
        }),
    }
}

/// Lays the sheet over the message. The pieces go first in the list, and its later entries stay.
pub fn lay<S: Source>(
    sheet: &CheckedSheet<'_, '_>,
    source: &S,
    pieces: &mut [Piece],
    laid: &mut Laid,
) -> Result<Cover, LayRefusal>
    ensures reading { LaysReading (text_of sheet.now) (rows_of sheet.now)
        (S.Source.cells source.now) (pieces_of pieces.old) result (pieces_of pieces.new) }
    ensures made { Made (text_of sheet.now) (rows_of sheet.now)
        (state_of (S.Source.cells source.now) pieces.old laid.old) steps.lay
        (lay_said result) (state_of (S.Source.cells source.now) pieces.new laid.new) }
    ensures told { cover_told result ≡ laid_told
        (laid_in (text_of sheet.now) (rows_of sheet.now) (S.Source.cells source.now)
        (length pieces.old)) }
    ensures front { pieces_of (take (count_of result) pieces.new) ≡ pieces_in
        (laid_in (text_of sheet.now) (rows_of sheet.now) (S.Source.cells source.now)
        (length pieces.old)) }
    ensures entries { pieces_of pieces.new ≡ laid_over
        (laid_in (text_of sheet.now) (rows_of sheet.now) (S.Source.cells source.now)
        (length pieces.old))
        (pieces_of pieces.old) }
    ensures rest { drop (count_of result) pieces.new ≡ drop (count_of result) pieces.old }
    ensures laid { laid.new ≡ laid_by result }
    ensures one { OneReading (text_of sheet.now) (rows_of sheet.now) }
{
    lift(laid);
    let cover = place_pieces(sheet, source, pieces)?;
    laid.pieces = Some(cover.pieces);
    Ok(cover)
}

/// Leaves nothing laid.
pub fn lift(laid: &mut Laid)
    ensures laid { laid.new ≡ None }
    ensures made { (text : List ℕ) (rows : List Row) (cells : List Cell) (pieces : List Piece) →
        Made text rows (state_of cells pieces laid.old) steps.lift steps.lifts
        (state_of cells pieces laid.new) }
{
    laid.pieces = None;
}
