// Putting other bytes into a kept piece. The change is tried first, and written only where the kept
// pieces are the reading of what it makes.
ghost use Rattle.std.specs.Prelude.{◌≡◌};
ghost use Rattle.told.specs.Answers.{as_told};
ghost use Rattle.cells.specs.Changed.{changed, changes_of};
ghost use Rattle.sheet.specs.Sheets.{rows_of, text_of};
ghost use Rattle.meaning.specs.Terms.{pieces_of};
ghost use Rattle.laws.specs.Rereads.{reread};
ghost use Rattle.reading.specs.Calls.{put_said};
ghost use Rattle.reading.specs.Outcomes.{meant, put_of, put_leaves};
ghost use Rattle.reading.specs.Puts.{PutsReading};
ghost use Rattle.reading.specs.Refusals.{put_told};
ghost use Rattle.reading.specs.States.{kept, state_of};
ghost use Rattle.reading.specs.Steps.{Made};
ghost use Rattle.reading.specs.Steps as steps;

use crate::Laid;
use crate::finding::meant_piece;
use crate::refusals::PutRefusal;
use cells::change::{Change, write_bytes};
use cells::patched::Patched;
use cells::source::{Source, Store};
use evaluate::message::BySheet;
use list::BoundedList;
use path::Piece;
use sheet::CheckedSheet;
use walk::comparing::Comparing;
use walk::walk;

// Whether the kept pieces are a reading of the source.
fn kept_read<S: Source>(
    sheet: &CheckedSheet<'_, '_>,
    source: &S,
    laid: &Laid,
    pieces: &mut [Piece],
) -> bool
    ensures value { result ≡ reread (text_of sheet.now) (rows_of sheet.now)
        (S.Source.cells source.now) (kept laid.now (pieces_of pieces.old)) }
    ensures same { pieces.new ≡ pieces.old }
{
    let count = laid.pieces.unwrap_or(0);
    let mut kept = BoundedList::holding(pieces, count);
    let wanted = kept.len();
    let message = BySheet { sheet, source };
    match walk(sheet, &message, &Comparing::of(&message, count), &mut kept) {
        Ok(_) => kept.len() == wanted,
        Err(_) => false,
    }
}

// The same of the source with changes made to it.
fn would_read<S: Source>(
    sheet: &CheckedSheet<'_, '_>,
    source: &S,
    laid: &Laid,
    pieces: &mut [Piece],
    changes: &[Change<'_>],
) -> bool
    ensures value { result ≡ reread (text_of sheet.now) (rows_of sheet.now)
        (changed (S.Source.cells source.now) (changes_of changes.now))
        (kept laid.now (pieces_of pieces.old)) }
    ensures same { pieces.new ≡ pieces.old }
{
    kept_read(sheet, &Patched::new(source, changes), laid, pieces)
}

/// Makes the bytes those of the kept piece with the path, if the kept pieces are the reading of the
/// changed bytes.
pub fn put<S: Store>(
    sheet: &CheckedSheet<'_, '_>,
    laid: &Laid,
    pieces: &mut [Piece],
    store: &mut S,
    path: &[u8],
    bytes: &[u8],
) -> Result<(), PutRefusal>
    ensures told { as_told put_told result ≡ put_of (text_of sheet.now) (rows_of sheet.now)
        (S.Source.cells store.old) laid.now (pieces_of pieces.old) path.now bytes.now }
    ensures reading { PutsReading (text_of sheet.now) (rows_of sheet.now)
        (S.Source.cells store.old) laid.now (pieces_of pieces.old) path.now bytes.now
        (as_told put_told result) }
    ensures cells { S.Source.cells store.new ≡ put_leaves
        (meant laid.now (pieces_of pieces.old) path.now) (as_told put_told result)
        (S.Source.cells store.old) bytes.now }
    ensures made { Made (text_of sheet.now) (rows_of sheet.now)
        (state_of (S.Source.cells store.old) pieces.old laid.now)
        (steps.on path.now (steps.put bytes.now)) (put_said result)
        (state_of (S.Source.cells store.new) pieces.new laid.now) }
    ensures same { pieces.new ≡ pieces.old }
    ensures spares { S.Store.spares store.new ≡ S.Store.spares store.old }
    ensures fixed { S.Store.fixed store.new ≡ S.Store.fixed store.old }
{
    let piece = meant_piece(laid, pieces, path)?;
    if bytes.len() != usize::from(piece.width) {
        return Err(PutRefusal::WrongWidth);
    }
    let place = usize::from(piece.place);
    let changes = [Change { place, bytes }];
    if !would_read(sheet, &*store, laid, pieces, &changes) {
        return Err(PutRefusal::NoReading);
    }
    write_bytes(store, &changes);
    Ok(())
}
