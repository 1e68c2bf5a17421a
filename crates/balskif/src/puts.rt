// Values that are put into messages.
ghost use Rattle.std.specs.Prelude.{◌≡◌, ◌≤◌, length};
ghost use Rattle.told.specs.Answers.{as_told};
ghost use Rattle.sheet.specs.Sheets.{rows_of, text_of};
ghost use Rattle.balskif.specs.Calls.{itself, number_of, put_laid, put_told, Altered, Refuses};
ghost use Rattle.balskif.specs.Puts.{PutEnds};

use crate::sheets::read;
use crate::{LONG, SHORT};
use cells::bytes::Bytes;
use cells::source::Store;
use path::Piece;
use reading::{Laid, lay, put};
use sheet::CheckedSheet;
use sheet_text::{MAX_ROWS, Row};
use told::Told;

// Lays the sheet over the store, and puts the value to the piece with the path.
fn put_on<S: Store>(
    sheet: &CheckedSheet<'_, '_>,
    pieces: &mut [Piece],
    store: &mut S,
    path: &[u8],
    value: &[u8],
) -> Result<(), Told>
    ensures told { as_told itself result ≡ put_laid (text_of sheet.now) (rows_of sheet.now) (S.Source.cells store.old) (length pieces.old) path.now value.now }
    ensures ends { PutEnds (text_of sheet.now) (rows_of sheet.now) (length pieces.old) (S.Source.cells store.old) path.now value.now (S.Source.cells store.new) result }
    ensures spares { S.Store.spares store.new ≡ S.Store.spares store.old }
    ensures fixed { S.Store.fixed store.new ≡ S.Store.fixed store.old }
{
    let mut laid = Laid::nothing();
    lay(sheet, &*store, pieces, &mut laid)?;
    put(sheet, &laid, pieces, store, path, value)?;
    Ok(())
}

// The same by the text of the sheet, in a message of bytes.
#[tactic(auto, using(crate::proofs::Refusing::refused_as))]
fn put_by(
    sheet: &[u8],
    message: &mut [u8],
    pieces: &mut [Piece],
    path: &[u8],
    value: &[u8],
) -> Result<(), Told>
    ensures told { as_told itself result ≡ put_told sheet.now message.old (length pieces.old) path.now value.now }
    ensures altered { Altered sheet.now message.old (length pieces.old) path.now value.now (number_of (as_told itself result)) message.new }
    ensures refuses { Refuses sheet.now message.old (length pieces.old) path.now value.now (number_of (as_told itself result)) }
{
    let mut table = [Row::BLANK; MAX_ROWS];
    let sheet = read(sheet, &mut table)?;
    put_on(&sheet, pieces, &mut Bytes::new(message), path, value)
}

// The same by a piece list of its own, short or long. Neither is put into its caller, whose part of the stack would then
// hold both lists.
#[inline(never)]
pub(crate) fn put_short(
    sheet: &[u8],
    message: &mut [u8],
    room: usize,
    path: &[u8],
    value: &[u8],
) -> Result<(), Told>
    requires { room ≤ SHORT }
    ensures told { as_told itself result ≡ put_told sheet.now message.old room path.now value.now }
    ensures altered { Altered sheet.now message.old room path.now value.now (number_of (as_told itself result)) message.new }
    ensures refuses { Refuses sheet.now message.old room path.now value.now (number_of (as_told itself result)) }
{
    let mut pieces = [Piece::blank(); SHORT];
    put_by(sheet, message, &mut pieces[..room], path, value)
}

#[inline(never)]
pub(crate) fn put_long(
    sheet: &[u8],
    message: &mut [u8],
    room: usize,
    path: &[u8],
    value: &[u8],
) -> Result<(), Told>
    requires { room ≤ LONG }
    ensures told { as_told itself result ≡ put_told sheet.now message.old room path.now value.now }
    ensures altered { Altered sheet.now message.old room path.now value.now (number_of (as_told itself result)) message.new }
    ensures refuses { Refuses sheet.now message.old room path.now value.now (number_of (as_told itself result)) }
{
    let mut pieces = [Piece::blank(); LONG];
    put_by(sheet, message, &mut pieces[..room], path, value)
}
