// The kept pieces by their paths in print.
ghost use Rattle.std.specs.Prelude.{◌≡◌, ℕ, List, take};
ghost use Rattle.std.specs.Option.{option_map};
ghost use Rattle.cells.specs.declared.cell.Cell.{Cell};
ghost use Rattle.sheet_text.specs.declared.row.Row.{Row};
ghost use Rattle.told.specs.Answers.{as_told};
ghost use Rattle.meaning.specs.Terms.{piece_of, pieces_of};
ghost use Rattle.reading.specs.States.{named, state_of};
ghost use Rattle.reading.specs.Outcomes.{meant, piece_told, shown_of, bytes_told, IsPart};
ghost use Rattle.reading.specs.Outcomes.{with_piece, found_as};
ghost use Rattle.reading.specs.Refusals.{find_told};
ghost use Rattle.reading.specs.Steps.{Made};
ghost use Rattle.reading.specs.Steps as steps;
ghost use Rattle.reading.specs.Calls.{find_said};

use crate::Laid;
use crate::answers::Found;
use crate::refusals::{FindRefusal, ShowRefusal};
use evaluate::lookup::find_piece;
use list::BoundedList;
use path::{Path, Piece};

// The last of the kept pieces that has the path.
fn kept_piece(pieces: &mut [Piece], count: usize, path: &[u8]) -> Option<Piece>
    ensures value { option_map piece_of result
        ≡ named (take count (pieces_of pieces.old)) path.now }
    ensures same { pieces.new ≡ pieces.old }
{
    let Some(path) = Path::parse(path) else {
        return None;
    };
    let mut kept = BoundedList::holding(pieces, count);
    find_piece(&mut kept, path).ok()
}

// The kept piece that a call means.
pub(crate) fn meant_piece(
    laid: &Laid,
    pieces: &mut [Piece],
    path: &[u8],
) -> Result<Piece, FindRefusal>
    ensures value { piece_told result ≡ meant laid.now (pieces_of pieces.old) path.now }
    ensures same { pieces.new ≡ pieces.old }
{
    let Some(count) = laid.pieces else {
        return Err(FindRefusal::NothingLaid);
    };
    kept_piece(pieces, count, path).ok_or(FindRefusal::NoPiece)
}

/// The row, place and width of the kept piece with the path.
pub fn find(laid: &Laid, pieces: &mut [Piece], path: &[u8]) -> Result<Found, FindRefusal>
    ensures told { as_told find_told result
        ≡ with_piece (meant laid.now (pieces_of pieces.old) path.now) found_as }
    ensures made { (text : List ℕ) (rows : List Row) (cells : List Cell) →
        Made text rows (state_of cells pieces.old laid.now) (steps.on path.now steps.find)
        (find_said result) (state_of cells pieces.new laid.now) }
    ensures same { pieces.new ≡ pieces.old }
{
    let piece = meant_piece(laid, pieces, path)?;
    Ok(Found {
        row: piece.row,
        place: piece.place,
        width: piece.width,
    })
}

/// The bytes of the kept piece with the path: that part of the bytes that are handed in.
pub fn show<'m>(
    laid: &Laid,
    pieces: &mut [Piece],
    bytes: &'m [u8],
    path: &[u8],
) -> Result<&'m [u8], ShowRefusal>
    ensures told { bytes_told result ≡ shown_of laid.now (pieces_of pieces.old) bytes.now path.now }
    ensures part { IsPart (meant laid.now (pieces_of pieces.old) path.now) bytes.entry result }
    ensures same { pieces.new ≡ pieces.old }
{
    let piece = meant_piece(laid, pieces, path)?;
    let place = usize::from(piece.place);
    let end = place + usize::from(piece.width);
    let count = bytes.len().min(65535);
    if count < end {
        return Err(ShowRefusal::PastEnd(count));
    }
    Ok(&bytes[place..end])
}
