// What C calls: checking a sheet, listing a message, putting a value. interface/balskif.h declares these functions.
#![tactic(auto)]

ghost use Rattle.std.specs.Prelude.{◌≡◌, ◌<◌, length};
ghost use Rattle.balskif.specs.Calls.{checked, line_of, number_of, listed, put_told, room_of, Altered, Checks, Refuses, Written};

use told::Told;

mod lists;
mod puts;
mod sheets;

/// No piece list of a call has more places.
pub const LONG: usize = 16384;
/// A call with so many places at most takes a small part of the stack.
pub const SHORT: usize = 2048;

/// Checks a sheet. Answers 0, or the number of its first fault, with the fault's line.
#[unsafe(no_mangle)]
pub extern "C" fn balskif_check(sheet: &[u8], line: &mut u64) -> u8
    ensures number { result ≡ number_of (checked sheet.now) }
    ensures line { line.new ≡ line_of (checked sheet.now) }
    ensures checks { Checks sheet.now result line.new }
{
    *line = 0;
    let Err(refusal) = sheets::check(sheet) else {
        return 0;
    };
    *line = refusal.line as u64;
    Told::from(refusal).number
}

/// Lists a message by a sheet, by a piece list of so many places, at most `LONG`. Answers the length of the text,
/// which stands at the front of the buffer, or 0 where the buffer is too short.
#[tactic(auto, using(crate::proofs::Texts::some_text))]
#[unsafe(no_mangle)]
pub extern "C" fn balskif_list(sheet: &[u8], message: &[u8], places: usize, out: &mut [u8]) -> usize
    ensures written { Written (listed sheet.now (room_of places) message.now) out.old result out.new }
    ensures some { 0 < length (listed sheet.now (room_of places) message.now) }
    ensures sizes { (SHORT ≡ 2048) × (LONG ≡ 16384) }
{
    if places <= SHORT {
        lists::list_short(sheet, message, places, out)
    } else {
        lists::list_long(sheet, message, places.min(LONG), out)
    }
}

/// Puts a value to the piece of a message that has the path, by a sheet and a piece list of so many places, at most
/// `LONG`. Answers 0, or the number of the refusal.
#[unsafe(no_mangle)]
pub extern "C" fn balskif_put(
    sheet: &[u8],
    message: &mut [u8],
    places: usize,
    path: &[u8],
    value: &[u8],
) -> u8
    ensures number { result ≡ number_of (put_told sheet.now message.old (room_of places) path.now value.now) }
    ensures altered { Altered sheet.now message.old (room_of places) path.now value.now result message.new }
    ensures refuses { Refuses sheet.now message.old (room_of places) path.now value.now result }
{
    let put = if places <= SHORT {
        puts::put_short(sheet, message, places, path, value)
    } else {
        puts::put_long(sheet, message, places.min(LONG), path, value)
    };
    match put {
        Ok(()) => 0,
        Err(told) => told.number,
    }
}
