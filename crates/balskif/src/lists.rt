// Listings in memory that is handed in.
ghost use Rattle.std.specs.Prelude.{◌≤◌, length};
ghost use Rattle.balskif.specs.Calls.{listed, Written};

use crate::sheets::read;
use crate::{LONG, SHORT};
use cells::view::View;
use line::Line;
use listing::{write_fault, write_message};
use path::Piece;
use sheet_text::{MAX_ROWS, Row};

// The length of the listing, which goes to the front of the places; or 0, where they are too few.
fn list_by(sheet: &[u8], message: &[u8], pieces: &mut [Piece], places: &mut [u8]) -> usize
    ensures { Written (listed sheet.now (length pieces.old) message.now) places.old result places.new }
{
    let mut table = [Row::BLANK; MAX_ROWS];
    let mut line = Line::new(places);
    let written = match read(sheet, &mut table) {
        Ok(sheet) => write_message(&sheet, &View::new(message), pieces, &mut line),
        Err(told) => write_fault(told, &mut line),
    };
    if written.is_ok() { line.len() } else { 0 }
}

// The same by a piece list of its own, short or long. Neither is put into its caller, whose part of the stack would then
// hold both lists.
#[inline(never)]
pub(crate) fn list_short(sheet: &[u8], message: &[u8], room: usize, places: &mut [u8]) -> usize
    requires { room ≤ SHORT }
    ensures { Written (listed sheet.now room message.now) places.old result places.new }
{
    let mut pieces = [Piece::blank(); SHORT];
    list_by(sheet, message, &mut pieces[..room], places)
}

#[inline(never)]
pub(crate) fn list_long(sheet: &[u8], message: &[u8], room: usize, places: &mut [u8]) -> usize
    requires { room ≤ LONG }
    ensures { Written (listed sheet.now room message.now) places.old result places.new }
{
    let mut pieces = [Piece::blank(); LONG];
    list_by(sheet, message, &mut pieces[..room], places)
}
