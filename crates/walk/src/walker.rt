// What a row in front comes to.
ghost use Rattle.std.specs.Prelude.{◌≡◌, ℕ, ◌+◌, ◌<◌, ◌≤◌, ◌∷◌, length, cond, MatchResult};
ghost use Rattle.list.specs.Contents.{backing, contents, room};
ghost use Rattle.path.specs.Meaning.{path_of};
ghost use Rattle.opened.specs.Opens.{records_of};
ghost use Rattle.sheet.specs.Sheets.{rows_of, text_of};
ghost use Rattle.sheet_text.specs.declared.word.Base.{Base as BaseWord};
ghost use Rattle.sheet_text.specs.declared.word.Word.TheVariants as words;
ghost use Rattle.sheet_text.specs.declared.word.TypeWord.TheVariants as type_words;
ghost use Rattle.sheet.specs.Checks.{row_at};
ghost use Rattle.meaning.specs.Bars.{Bars};
ghost use Rattle.meaning.specs.Values.{elements_of};
ghost use Rattle.meaning.specs.Matcher.{accepted, refused, put_piece};
ghost use Rattle.evaluate.specs.Evaluated.{number_value, truth_value};
ghost use Rattle.walk.specs.Frames.{in_front, frame_of, open_of, placed_of, through, resume};
ghost use Rattle.walk.specs.Placers.{Keeps};
ghost use Rattle.walk.specs.Turns.{Shallow, AllShallow};
ghost use Rattle.walk.specs.Walks.{needed_value, counted, Reached, StandsIn, Turned};

use crate::frames::{Frame, push};
use crate::placer::Placer;
use evaluate::evaluation::Evaluation;
use evaluate::message::Message;
use evaluate::rows::{ref_in, row_at};
use list::BoundedList;
use meaning::LayFault;
use opened::Opened;
use path::{Path, Piece};
use sheet::{CheckedSheet, target};
use sheet_text::{Base, Row, TypeWord, Word};

// The sheet, the message, and where its pieces go.
#[derive(Drop)]
pub(crate) struct Walker<'w, 't, 'r, M, P> {
    pub(crate) sheet: &'w CheckedSheet<'t, 'r>,
    pub(crate) message: &'w M,
    pub(crate) placer: &'w P,
}

// The record here, opened as the innermost.
fn entered(here: Opened) -> Opened
    requires { length (records_of here) ≤ 8 }
    ensures path { path_of result.path ≡ path_of here.path }
    ensures records { records_of result ≡ path_of here.path ∷ records_of here }
{
    let Some(inside) = here.opened() else {
        unreachable!();
    };
    inside
}

pub(crate) fn pick(chosen: bool, yes: usize, no: usize) -> usize
    ensures { result ≡ cond chosen yes no }
{
    if chosen { yes } else { no }
}

// How many elements an array has by its number, if it can.
fn elements_of(number: u64) -> Option<u16>
    ensures { result ≡ elements_of number }
{
    u16::try_from(number).ok()
}

impl<M: Message, P: Placer> Walker<'_, '_, '_, M, P> {
    // How many elements an array has.
    pub(crate) fn elements(
        &self,
        pieces: &mut BoundedList<'_, Piece>,
        here: &Opened,
        row: usize,
    ) -> Result<u16, LayFault>
        ensures count { result ≡ counted
            (number_value (M.Message.meaning self.now.message.now) self.now.sheet.now pieces.old
            here.now row) }
        ensures same { pieces.new ≡ pieces.old }
    {
        let evaluation = Evaluation {
            sheet: self.sheet,
            message: self.message,
            records: here,
        };
        elements_of(evaluation.number(pieces, row)?).ok_or(LayFault::TooMany)
    }

    // Which of its types an alternative has.
    pub(crate) fn truth(
        &self,
        pieces: &mut BoundedList<'_, Piece>,
        here: &Opened,
        row: usize,
    ) -> Result<bool, LayFault>
        ensures truth { result ≡ needed_value
            (truth_value (M.Message.meaning self.now.message.now) self.now.sheet.now pieces.old
            here.now row) }
        ensures same { pieces.new ≡ pieces.old }
    {
        let evaluation = Evaluation {
            sheet: self.sheet,
            message: self.message,
            records: here,
        };
        Ok(evaluation.truth(pieces, row)?)
    }

    // What stands in for a row in front that is no base.
    fn stand_in(
        &self,
        pieces: &mut BoundedList<'_, Piece>,
        here: Opened,
        row: usize,
        r: Row,
        word: TypeWord,
    ) -> Result<Frame, LayFault>
        requires row { r ≡ row_at (rows_of self.now.sheet.now) row }
        requires word { r.word ≡ words.Type word }
        requires other { (b : BaseWord) → ¬ (word ≡ type_words.Base b) }
        requires deep { length (records_of here) ≤ 8 }
        ensures outcome { MatchResult result
            (λ f. (bars : Bars) (n : ℕ)
            → Shallow (text_of self.now.sheet.now) (rows_of self.now.sheet.now)
            (in_front (path_of here.path) (records_of here) row) n
            → StandsIn (text_of self.now.sheet.now) (rows_of self.now.sheet.now)
            (M.Message.meaning self.now.message.now) bars (placed_of pieces.old) n
            (in_front (path_of here.path) (records_of here) row) (frame_of f))
            (λ e. (bars : Bars)
            → through (text_of self.now.sheet.now) (rows_of self.now.sheet.now)
            (M.Message.meaning self.now.message.now) bars
            (in_front (path_of here.path) (records_of here) row) (placed_of pieces.old)
            ≡ refused e row (placed_of pieces.old)) }
        ensures same { pieces.new ≡ pieces.old }
    {
        match word {
            TypeWord::Rec => Ok(Frame::Record {
                here: entered(here),
                next: ref_in(r.one),
            }),
            TypeWord::Arr => {
                let count = self.elements(pieces, &here, target(r.two))?;
                Ok(Frame::Array {
                    here,
                    element: target(r.one),
                    index: 0,
                    count,
                })
            }
            TypeWord::Alt => {
                let chosen = self.truth(pieces, &here, target(r.one))?;
                Ok(Frame::Front {
                    here,
                    row: pick(chosen, target(r.two), target(r.three)),
                })
            }
            _ => Err(LayFault::Void),
        }
    }

    // A base row becomes a piece, unless it is not taken. Answers the place reached.
    pub(crate) fn put(
        &self,
        pieces: &mut BoundedList<'_, Piece>,
        path: Path,
        row: usize,
        base: Base,
        place: usize,
    ) -> Result<usize, LayFault>
        requires row { row < 65536 }
        requires reached { Reached (placed_of pieces.now) place }
        ensures outcome { MatchResult result
            (λ q. (put_piece (P.Placer.bars self.now.placer.now (backing pieces.old))
            (path_of path) row base (placed_of pieces.old) ≡ accepted (placed_of pieces.new))
            × Reached (placed_of pieces.new) q)
            (λ e. (put_piece (P.Placer.bars self.now.placer.now (backing pieces.old))
            (path_of path) row base (placed_of pieces.old) ≡ refused e row (placed_of pieces.old))
            × (placed_of pieces.new ≡ placed_of pieces.old)) }
        ensures keeps { Keeps (P.Placer.bars self.now.placer.now)
            (P.Placer.leaves self.now.placer.now)
            pieces.old pieces.new }
    {
        let width = base.width();
        let piece = Piece {
            path,
            row: row as u16,
            place: place as u16,
            width,
        };
        self.placer.place(pieces, piece)?;
        Ok(place + usize::from(width))
    }

    // The row in front is opened: a base row becomes a piece, and its parts stand in for every
    // other. Answers the place reached.
    pub(crate) fn open(
        &self,
        pieces: &mut BoundedList<'_, Piece>,
        frames: &mut BoundedList<'_, Frame>,
        here: Opened,
        row: usize,
        place: usize,
    ) -> Result<usize, LayFault>
        requires shallow { AllShallow (text_of self.now.sheet.now) (rows_of self.now.sheet.now)
            (in_front (path_of here.path) (records_of here) row ∷ open_of frames.now) }
        requires room { 10 ≤ room frames.now }
        requires reached { Reached (placed_of pieces.now) place }
        ensures outcome { MatchResult result
            (λ q. Turned (text_of self.now.sheet.now) (rows_of self.now.sheet.now)
            (M.Message.meaning self.now.message.now)
            (P.Placer.bars self.now.placer.now (backing pieces.old))
            (in_front (path_of here.path) (records_of here) row ∷ open_of frames.old)
            (placed_of pieces.old) (open_of frames.new) (placed_of pieces.new)
            × Reached (placed_of pieces.new) q)
            (λ e. (resume (text_of self.now.sheet.now) (rows_of self.now.sheet.now)
            (M.Message.meaning self.now.message.now)
            (P.Placer.bars self.now.placer.now (backing pieces.old))
            (in_front (path_of here.path) (records_of here) row ∷ open_of frames.old)
            (placed_of pieces.old) ≡ refused e row (placed_of pieces.new))
            × Reached (placed_of pieces.new) place) }
        ensures keeps { Keeps (P.Placer.bars self.now.placer.now)
            (P.Placer.leaves self.now.placer.now)
            pieces.old pieces.new }
        ensures room { room frames.new ≡ room frames.old }
    {
        let r = row_at(self.sheet, row);
        let Word::Type(word) = r.word else {
            return Err(LayFault::Void);
        };
        if let TypeWord::Base(base) = word {
            return self.put(pieces, here.path(), row, base, place);
        }
        let frame = self.stand_in(pieces, here, row, r, word)?;
        push(frames, frame);
        Ok(place)
    }
}
