// Numbers, and the pieces that locations name. An index step of a location holds a number.
ghost use Rattle.std.specs.Prelude.{◌≡◌, ℕ, ◌+◌, ◌-◌, ◌*◌, ◌<◌, ◌≤◌, List, length};
ghost use Rattle.list.specs.Contents.{contents};
ghost use Rattle.sheet.specs.Sheets.{rows_of};
ghost use Rattle.meaning.specs.Forward.{LeadsOn};
ghost use Rattle.evaluate.specs.Reaches.{reach_of, as_reach};
ghost use Rattle.evaluate.specs.Evaluated.{as_piece, number_value, number_of_row, place_value};
ghost use Rattle.evaluate.specs.Evaluated.{reach_value, reach_of_row};

use crate::evaluation::Evaluation;
use crate::lookup::find_piece;
use crate::message::Message;
use crate::reach::{into_element, into_field};
use crate::rows::{ref_in, row_at};
use content::{product, sum};
use list::BoundedList;
use meaning::EvalFault;
use path::{Path, Piece};
use sheet::target;
use sheet_text::{NumberWord, Row, StepWord, Word};

impl<M: Message> Evaluation<'_, '_, '_, M> {
    // The value of a number row.
    #[cycle(numbers_and_locations)]
    pub(crate) fn number_at(
        &self,
        pieces: &mut BoundedList<'_, Piece>,
        row: usize,
    ) -> Result<u64, EvalFault>
        ensures value { result ≡ number_value (M.Message.meaning self.now.message.now)
            self.now.sheet.now pieces.old self.now.records.now row }
        ensures same { pieces.new ≡ pieces.old }
    {
        self.number_by(pieces, row, row_at(self.sheet, row))
    }

    // The value of a number row by its word and columns. Apart from `number_at`, as are the others
    // whose names end in `by`, so that what the row refers to is said once, and each case is proved
    // with no answer; `row` is there for the measure.
    #[cycle(numbers_and_locations)]
    fn number_by(
        &self,
        pieces: &mut BoundedList<'_, Piece>,
        row: usize,
        r: Row,
    ) -> Result<u64, EvalFault>
        requires leads { LeadsOn (rows_of self.now.sheet.now) row r }
        requires few { length (rows_of self.now.sheet.now) ≤ 256 }
        ensures value { result ≡ number_of_row (M.Message.meaning self.now.message.now)
            self.now.sheet.now pieces.old self.now.records.now r }
        ensures same { pieces.new ≡ pieces.old }
    {
        let Word::Number(word) = r.word else {
            return Err(EvalFault::NoValue);
        };
        match word {
            NumberWord::Lit => Ok(r.one.number().unwrap_or(0)),
            NumberWord::Loc => {
                let piece = self.piece_at(pieces, target(r.one))?;
                self.message.number(&piece)
            }
            NumberWord::Add => {
                let a = self.number_at(pieces, target(r.one))?;
                let b = self.number_at(pieces, target(r.two))?;
                sum(a, b)
            }
            NumberWord::Mul => {
                let a = self.number_at(pieces, target(r.one))?;
                let b = self.number_at(pieces, target(r.two))?;
                product(a, b)
            }
        }
    }

    // The piece that a location names.
    #[cycle(numbers_and_locations)]
    pub(crate) fn piece_at(
        &self,
        pieces: &mut BoundedList<'_, Piece>,
        row: usize,
    ) -> Result<Piece, EvalFault>
        ensures value { as_piece result ≡ place_value (M.Message.meaning self.now.message.now)
            self.now.sheet.now pieces.old self.now.records.now row }
        ensures same { pieces.new ≡ pieces.old }
    {
        let r = row_at(self.sheet, row);
        let Word::From = r.word else {
            return Err(EvalFault::NoValue);
        };
        let start = self
            .records
            .climb(r.one.number().unwrap_or(0))
            .ok_or(EvalFault::NoValue)?;
        let reach = self.steps(pieces, ref_in(r.two), Some(start))?;
        find_piece(pieces, reach.ok_or(EvalFault::NoValue)?)
    }

    // The path after the steps from a row on.
    #[cycle(numbers_and_locations)]
    fn steps(
        &self,
        pieces: &mut BoundedList<'_, Piece>,
        row: Option<usize>,
        reach: Option<Path>,
    ) -> Result<Option<Path>, EvalFault>
        ensures value { as_reach result ≡ reach_value (M.Message.meaning self.now.message.now)
            self.now.sheet.now pieces.old self.now.records.now row (reach_of reach) }
        ensures same { pieces.new ≡ pieces.old }
    {
        let Some(at) = row else {
            return Ok(reach);
        };
        self.steps_by(pieces, at, row_at(self.sheet, at), reach)
    }

    // The path after a step by its row's word and columns, and after those behind it.
    #[cycle(numbers_and_locations)]
    fn steps_by(
        &self,
        pieces: &mut BoundedList<'_, Piece>,
        row: usize,
        r: Row,
        reach: Option<Path>,
    ) -> Result<Option<Path>, EvalFault>
        requires leads { LeadsOn (rows_of self.now.sheet.now) row r }
        requires few { length (rows_of self.now.sheet.now) ≤ 256 }
        ensures value { as_reach result ≡ reach_of_row (M.Message.meaning self.now.message.now)
            self.now.sheet.now pieces.old self.now.records.now r (reach_of reach) }
        ensures same { pieces.new ≡ pieces.old }
    {
        let Word::Step(word) = r.word else {
            return Err(EvalFault::NoValue);
        };
        match word {
            StepWord::Dot => {
                let next = into_field(self.sheet.text(), r.name, reach);
                self.steps(pieces, ref_in(r.one), next)
            }
            StepWord::Idx => {
                let i = self.number_at(pieces, target(r.one))?;
                self.steps(pieces, ref_in(r.two), into_element(i, reach))
            }
        }
    }
}
