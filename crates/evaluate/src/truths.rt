// Truths.
ghost use Rattle.std.specs.Prelude.{◌≡◌, ℕ, ◌+◌, ◌-◌, ◌*◌, ◌<◌, ◌≤◌, List, length};
ghost use Rattle.sheet.specs.Sheets.{rows_of};
ghost use Rattle.meaning.specs.Forward.{LeadsOn};
ghost use Rattle.evaluate.specs.Evaluated.{truth_value, truth_of_row};

use crate::evaluation::Evaluation;
use crate::message::Message;
use crate::rows::row_at;
use list::BoundedList;
use meaning::EvalFault;
use path::Piece;
use sheet::target;
use sheet_text::{Row, TruthWord, Word};

impl<M: Message> Evaluation<'_, '_, '_, M> {
    // The value of a truth row.
    #[cycle(truths)]
    pub(crate) fn truth_at(
        &self,
        pieces: &mut BoundedList<'_, Piece>,
        row: usize,
    ) -> Result<bool, EvalFault>
        ensures value { result ≡ truth_value (M.Message.meaning self.now.message.now)
            self.now.sheet.now pieces.old self.now.records.now row }
        ensures same { pieces.new ≡ pieces.old }
    {
        self.truth_by(pieces, row, row_at(self.sheet, row))
    }

    // The value of a truth row by its word and columns. Both sides of `and` and `or` are always
    // worked out.
    #[cycle(truths)]
    fn truth_by(
        &self,
        pieces: &mut BoundedList<'_, Piece>,
        row: usize,
        r: Row,
    ) -> Result<bool, EvalFault>
        requires leads { LeadsOn (rows_of self.now.sheet.now) row r }
        requires few { length (rows_of self.now.sheet.now) ≤ 256 }
        ensures value { result ≡ truth_of_row (M.Message.meaning self.now.message.now)
            self.now.sheet.now pieces.old self.now.records.now r }
        ensures same { pieces.new ≡ pieces.old }
    {
        let Word::Truth(word) = r.word else {
            return Err(EvalFault::NoValue);
        };
        match word {
            TruthWord::True => Ok(true),
            TruthWord::False => Ok(false),
            TruthWord::Bloc => {
                let piece = self.piece_at(pieces, target(r.one))?;
                self.message.truth(&piece)
            }
            TruthWord::Not => Ok(!self.truth_at(pieces, target(r.one))?),
            TruthWord::And => {
                Ok(self.truth_at(pieces, target(r.one))? & self.truth_at(pieces, target(r.two))?)
            }
            TruthWord::Or => {
                Ok(self.truth_at(pieces, target(r.one))? | self.truth_at(pieces, target(r.two))?)
            }
            TruthWord::Eq => {
                Ok(self.number_at(pieces, target(r.one))? == self.number_at(pieces, target(r.two))?)
            }
            TruthWord::Lt => {
                Ok(self.number_at(pieces, target(r.one))? < self.number_at(pieces, target(r.two))?)
            }
        }
    }
}
