// Calls one after another, on one store and one piece list.
ghost use Rattle.std.specs.Prelude.{◌≡◌, None, min, map, length, take, drop};
ghost use Rattle.std.specs.List.{AllZip};
ghost use Rattle.sheet.specs.Sheets.{rows_of, text_of};
ghost use Rattle.meaning.specs.Terms.{pieces_of};
ghost use Rattle.reading.specs.Calls.{Replies, asked, lay_said, said};
ghost use Rattle.reading.specs.Outcomes.{count_of, laid_by};
ghost use Rattle.reading.specs.States.{state_of};
ghost use Rattle.reading.specs.Lays.{LaysReading};
ghost use Rattle.reading.specs.Law.{Law, LawOfReadings};
ghost use Rattle.reading.specs.Steps.{Made};

use crate::Laid;
use crate::answers::{Answer, Call, Cover};
use crate::finding::find;
use crate::laying::{lay, lift};
use crate::putting::put;
use crate::refusals::LayRefusal;
use cells::source::{Source, Store};
use path::Piece;
use sheet::CheckedSheet;

// One call.
fn answer<S: Store>(
    sheet: &CheckedSheet<'_, '_>,
    store: &mut S,
    pieces: &mut [Piece],
    laid: &mut Laid,
    call: &Call<'_>,
) -> Answer
    ensures made { Made (text_of sheet.now) (rows_of sheet.now)
        (state_of (S.Source.cells store.old) pieces.old laid.old) (asked call.now)
        (said result) (state_of (S.Source.cells store.new) pieces.new laid.new) }
    ensures replies { Replies call.now result }
    ensures spares { S.Store.spares store.new ≡ S.Store.spares store.old }
    ensures fixed { S.Store.fixed store.new ≡ S.Store.fixed store.old }
{
    match call {
        Call::Lay => match lay(sheet, &*store, pieces, laid) {
            Ok(cover) => Answer::Laid(cover),
            Err(refusal) => Answer::NotLaid(refusal),
        },
        Call::Find(path) => match find(laid, pieces, path) {
            Ok(found) => Answer::Found(found),
            Err(refusal) => Answer::NotFound(refusal),
        },
        Call::Put(path, bytes) => match put(sheet, laid, pieces, store, path, bytes) {
            Ok(()) => Answer::Put,
            Err(refusal) => Answer::NotPut(refusal),
        },
        Call::Lift => {
            lift(laid);
            Answer::Lifted
        }
    }
}

/// Makes the calls one after another, as many as there are places for answers, and writes each
/// answer to its place. Answers how many calls that were.
pub fn run<S: Store>(
    sheet: &CheckedSheet<'_, '_>,
    store: &mut S,
    pieces: &mut [Piece],
    laid: &mut Laid,
    calls: &[Call<'_>],
    answers: &mut [Answer],
) -> usize
    ensures law { Law (text_of sheet.now) (rows_of sheet.now)
        (state_of (S.Source.cells store.old) pieces.old laid.old)
        (map asked (take result calls.now)) (map said (take result answers.new))
        (state_of (S.Source.cells store.new) pieces.new laid.new) }
    ensures replies { AllZip Replies (take result calls.now) (take result answers.new) }
    ensures count { result ≡ min (length calls.now) (length answers.old) }
    ensures rest { drop result answers.new ≡ drop result answers.old }
    ensures spares { S.Store.spares store.new ≡ S.Store.spares store.old }
    ensures fixed { S.Store.fixed store.new ≡ S.Store.fixed store.old }
{
    let n = calls.len().min(answers.len());
    for i in 0..n {
        answers[i] = answer(sheet, store, pieces, laid, &calls[i]);
    }
    n
}

/// What `lay_then_run_afresh` came to.
#[derive(Drop)]
pub struct Session {
    /// the laying of the message
    pub laying: Result<Cover, LayRefusal>,
    /// how many calls were made
    pub calls: usize,
    /// whether a sheet is laid after them
    pub laid: Laid,
}

/// Lays the sheet over a message of any source, the pieces into one list. Then makes calls on a
/// store and another list, as `run` does, with nothing laid at first.
pub fn lay_then_run_afresh<R: Source, S: Store>(
    sheet: &CheckedSheet<'_, '_>,
    message: &R,
    places: &mut [Piece],
    store: &mut S,
    pieces: &mut [Piece],
    calls: &[Call<'_>],
    answers: &mut [Answer],
) -> Session
    ensures laying { LaysReading (text_of sheet.now) (rows_of sheet.now)
        (R.Source.cells message.now) (pieces_of places.old) result.laying (pieces_of places.new) }
    ensures law { LawOfReadings (text_of sheet.now) (rows_of sheet.now)
        (state_of (R.Source.cells message.now) places.old None) (lay_said result.laying)
        (state_of (R.Source.cells message.now) places.new (laid_by result.laying))
        (state_of (S.Source.cells store.old) pieces.old None)
        (map asked (take result.calls calls.now)) (map said (take result.calls answers.new))
        (state_of (S.Source.cells store.new) pieces.new result.laid) }
    ensures replies { AllZip Replies (take result.calls calls.now) (take result.calls answers.new) }
    ensures count { result.calls ≡ min (length calls.now) (length answers.old) }
    ensures places { drop (count_of result.laying) places.new
        ≡ drop (count_of result.laying) places.old }
    ensures rest { drop result.calls answers.new ≡ drop result.calls answers.old }
    ensures spares { S.Store.spares store.new ≡ S.Store.spares store.old }
    ensures fixed { S.Store.fixed store.new ≡ S.Store.fixed store.old }
{
    let mut aside = Laid::nothing();
    let laying = lay(sheet, message, places, &mut aside);
    let mut laid = Laid::nothing();
    let made = run(sheet, store, pieces, &mut laid, calls, answers);
    Session {
        laying,
        calls: made,
        laid,
    }
}
