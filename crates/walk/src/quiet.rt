// Rows that place nothing as things stand: they would consult only what is placed by now, from
// records that are open around them. They are passed over, however many elements or fields there
// are.
ghost use Rattle.std.specs.Prelude.{◌≡◌, ◌-◌, ◌<◌, ◌≤◌, true, false, drop, length, MatchOption};
ghost use Rattle.std.specs.Prelude.{slice_index_or};
ghost use Rattle.list.specs.Contents.{room};
ghost use Rattle.path.specs.Meaning.{path_of};
ghost use Rattle.opened.specs.Opens.{records_of};
ghost use Rattle.sheet.specs.Sheets.{rows_of, text_of};
ghost use Rattle.sheet_text.specs.declared.word.Word.TheVariants as words;
ghost use Rattle.sheet.specs.Checks.{row_at};
ghost use Rattle.meaning.specs.Forward.{LeadsOn};
ghost use Rattle.walk.specs.Frames.{in_array, in_record, frame_of, open_of, placed_of};
ghost use Rattle.walk.specs.Quieted.{Hushed, Noted, QuietRow, QuietRest, StandsFor, spot_of};
ghost use Rattle.walk.specs.Turns.{AllShallow};

use crate::frames::{Frame, pop, push};
use crate::placer::Placer;
use crate::walker::{Walker, pick};
use evaluate::far::{far_number, far_truth};
use evaluate::message::Message;
use evaluate::rows::{ref_in, row_at};
use list::BoundedList;
use opened::Opened;
use path::Piece;
use sheet::target;
use sheet_text::{Row, TypeWord, Word};

// A place for each row and each number of records that are open inside, 0 to 8.
const NOTES: usize = 2304;

// Where it is noted that a row is quiet.
fn spot(row: usize, k: usize) -> Option<usize>
    ensures { MatchOption result (Unit {0}) (λ i. (i ≡ spot_of row k) × (k < 9) × (i < 2304)) }
{
    if row >= 256 || k >= 9 {
        return None;
    }
    Some(row * 9 + k)
}

// Whether it is noted there.
fn is_noted(notes: &[bool], at: usize) -> bool
    ensures { result ≡ slice_index_or notes.now at false }
{
    notes.get(at).copied().unwrap_or(false)
}

impl<M: Message, P: Placer> Walker<'_, '_, '_, M, P> {
    // Whether a row is found quiet, with so many of the records opened inside.
    #[cycle(quiet)]
    fn quiet_at(
        &self,
        pieces: &mut BoundedList<'_, Piece>,
        notes: &mut [bool; NOTES],
        inside: &Opened,
        k: usize,
        row: usize,
    ) -> bool
        requires inside { k ≤ length (records_of inside.now) }
        requires noted { Noted self.now.sheet.now (M.Message.meaning self.now.message.now)
            (placed_of pieces.now) (drop k (records_of inside.now)) notes.now }
        ensures quiet { result ≡ true
            → QuietRow self.now.sheet.now (M.Message.meaning self.now.message.now)
            (placed_of pieces.old) (records_of inside.now) k row }
        ensures noted { Noted self.now.sheet.now (M.Message.meaning self.now.message.now)
            (placed_of pieces.old) (drop k (records_of inside.now)) notes.new }
        ensures same { pieces.new ≡ pieces.old }
    {
        let Some(at) = spot(row, k) else {
            return false;
        };
        if is_noted(notes, at) {
            return true;
        }
        let quiet = self.quiet_by(pieces, notes, inside, k, row, row_at(self.sheet, row));
        if quiet {
            notes[at] = true;
        }
        quiet
    }

    // The same by the row's word and columns; `row` is there for the measure.
    #[cycle(quiet)]
    fn quiet_by(
        &self,
        pieces: &mut BoundedList<'_, Piece>,
        notes: &mut [bool; NOTES],
        inside: &Opened,
        k: usize,
        row: usize,
        r: Row,
    ) -> bool
        requires row { r ≡ row_at (rows_of self.now.sheet.now) row }
        requires few { k < 9 }
        requires inside { k ≤ length (records_of inside.now) }
        requires noted { Noted self.now.sheet.now (M.Message.meaning self.now.message.now)
            (placed_of pieces.now) (drop k (records_of inside.now)) notes.now }
        ensures quiet { result ≡ true
            → QuietRow self.now.sheet.now (M.Message.meaning self.now.message.now)
            (placed_of pieces.old) (records_of inside.now) k row }
        ensures noted { Noted self.now.sheet.now (M.Message.meaning self.now.message.now)
            (placed_of pieces.old) (drop k (records_of inside.now)) notes.new }
        ensures same { pieces.new ≡ pieces.old }
    {
        let Word::Type(word) = r.word else {
            return false;
        };
        match word {
            TypeWord::Rec => {
                let Some(within) = inside.opened() else {
                    return false;
                };
                self.quiet_rest(pieces, notes, &within, k + 1, ref_in(r.one))
            }
            TypeWord::Arr => {
                if !far_number(self.sheet, target(r.two), k) {
                    return false;
                }
                let Ok(count) = self.elements(pieces, inside, target(r.two)) else {
                    return false;
                };
                if count == 0 {
                    return true;
                }
                self.quiet_at(pieces, notes, inside, k, target(r.one))
            }
            TypeWord::Alt => {
                if !far_truth(self.sheet, target(r.one), k) {
                    return false;
                }
                let Ok(chosen) = self.truth(pieces, inside, target(r.one)) else {
                    return false;
                };
                let row = pick(chosen, target(r.two), target(r.three));
                self.quiet_at(pieces, notes, inside, k, row)
            }
            _ => false,
        }
    }

    // Whether all fields from one on are.
    #[cycle(quiet)]
    fn quiet_rest(
        &self,
        pieces: &mut BoundedList<'_, Piece>,
        notes: &mut [bool; NOTES],
        inside: &Opened,
        k: usize,
        next: Option<usize>,
    ) -> bool
        requires inside { k ≤ length (records_of inside.now) }
        requires noted { Noted self.now.sheet.now (M.Message.meaning self.now.message.now)
            (placed_of pieces.now) (drop k (records_of inside.now)) notes.now }
        ensures quiet { result ≡ true
            → QuietRest self.now.sheet.now (M.Message.meaning self.now.message.now)
            (placed_of pieces.old) (records_of inside.now) k next }
        ensures noted { Noted self.now.sheet.now (M.Message.meaning self.now.message.now)
            (placed_of pieces.old) (drop k (records_of inside.now)) notes.new }
        ensures same { pieces.new ≡ pieces.old }
    {
        let Some(row) = next else {
            return true;
        };
        let r = row_at(self.sheet, row);
        let Word::Field = r.word else {
            return false;
        };
        if !self.quiet_at(pieces, notes, inside, k, target(r.one)) {
            return false;
        }
        self.quiet_rest(pieces, notes, inside, k, ref_in(r.two))
    }

    // The first field from one on that is not found quiet.
    fn first_loud(
        &self,
        pieces: &mut BoundedList<'_, Piece>,
        here: &Opened,
        next: Option<usize>,
    ) -> Option<usize>
        ensures stands { StandsFor (text_of self.now.sheet.now) (rows_of self.now.sheet.now)
            (M.Message.meaning self.now.message.now) (placed_of pieces.old)
            (in_record (path_of here.now.path) (records_of here.now) next)
            (in_record (path_of here.now.path) (records_of here.now) result) }
        ensures same { pieces.new ≡ pieces.old }
    {
        let mut notes = [false; NOTES];
        let mut at = next;
        while let Some(row) = at {
            let r = row_at(self.sheet, row);
            let Word::Field = r.word else {
                return at;
            };
            if !self.quiet_at(pieces, &mut notes, here, 0, target(r.one)) {
                return at;
            }
            at = ref_in(r.two);
        }
        at
    }

    // Where an array goes on: behind its last element if they are found quiet.
    fn first_loud_element(
        &self,
        pieces: &mut BoundedList<'_, Piece>,
        here: &Opened,
        element: usize,
        index: u16,
        count: u16,
    ) -> u16
        ensures stands { StandsFor (text_of self.now.sheet.now) (rows_of self.now.sheet.now)
            (M.Message.meaning self.now.message.now) (placed_of pieces.old)
            (in_array (path_of here.now.path) (records_of here.now) element index (count - index))
            (in_array (path_of here.now.path) (records_of here.now) element result
            (count - result)) }
        ensures same { pieces.new ≡ pieces.old }
    {
        let mut notes = [false; NOTES];
        if self.quiet_at(pieces, &mut notes, here, 0, element) {
            return count;
        }
        index
    }

    // An open row without its next parts, as far as they are found quiet.
    fn louder(&self, pieces: &mut BoundedList<'_, Piece>, frame: Frame) -> Frame
        ensures stands { StandsFor (text_of self.now.sheet.now) (rows_of self.now.sheet.now)
            (M.Message.meaning self.now.message.now) (placed_of pieces.old) (frame_of frame)
            (frame_of result) }
        ensures same { pieces.new ≡ pieces.old }
    {
        match frame {
            Frame::Front { .. } => frame,
            Frame::Record { here, next } => {
                let next = self.first_loud(pieces, &here, next);
                Frame::Record { here, next }
            }
            Frame::Array {
                here,
                element,
                index,
                count,
            } => {
                let index = self.first_loud_element(pieces, &here, element, index, count);
                Frame::Array {
                    here,
                    element,
                    index,
                    count,
                }
            }
        }
    }

    // The innermost open row goes on without its next parts, as far as they are found quiet. Apart,
    // so that walks that need it seldom are not slower.
    #[inline(never)]
    pub(crate) fn hush(
        &self,
        pieces: &mut BoundedList<'_, Piece>,
        frames: &mut BoundedList<'_, Frame>,
    )
        requires shallow { AllShallow (text_of self.now.sheet.now) (rows_of self.now.sheet.now)
            (open_of frames.now) }
        requires room { 10 ≤ room frames.now }
        ensures hushed { Hushed (text_of self.now.sheet.now) (rows_of self.now.sheet.now)
            (M.Message.meaning self.now.message.now) (placed_of pieces.old) (open_of frames.old)
            (open_of frames.new) }
        ensures same { pieces.new ≡ pieces.old }
        ensures room { room frames.new ≡ room frames.old }
    {
        let Some(frame) = pop(frames) else {
            return;
        };
        let louder = self.louder(pieces, frame);
        push(frames, louder);
    }
}
