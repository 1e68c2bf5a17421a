// The values of number and truth rows and the pieces that locations name, over any message.
#![tactic(auto)]

ghost use Rattle.std.specs.Prelude.{◌≡◌};
ghost use Rattle.evaluate.specs.Evaluated.{as_piece, number_value, truth_value, place_value};

use evaluation::Evaluation;
use list::BoundedList;
use meaning::EvalFault;
use message::Message;
use path::Piece;

pub mod evaluation;
pub mod far;
pub mod lookup;
pub mod message;
mod numbers;
mod reach;
pub mod rows;
mod truths;

impl<M: Message> Evaluation<'_, '_, '_, M> {
    /// The value of a number row, after the pieces.
    pub fn number(&self, pieces: &mut BoundedList<'_, Piece>, row: usize) -> Result<u64, EvalFault>
        ensures value { result ≡ number_value (M.Message.meaning self.now.message.now)
            self.now.sheet.now pieces.old self.now.records.now row }
        ensures same { pieces.new ≡ pieces.old }
    {
        self.number_at(pieces, row)
    }

    /// The value of a truth row.
    pub fn truth(&self, pieces: &mut BoundedList<'_, Piece>, row: usize) -> Result<bool, EvalFault>
        ensures value { result ≡ truth_value (M.Message.meaning self.now.message.now)
            self.now.sheet.now pieces.old self.now.records.now row }
        ensures same { pieces.new ≡ pieces.old }
    {
        self.truth_at(pieces, row)
    }

    /// The piece that the location of a `from` row names.
    pub fn location(
        &self,
        pieces: &mut BoundedList<'_, Piece>,
        row: usize,
    ) -> Result<Piece, EvalFault>
        ensures value { as_piece result ≡ place_value (M.Message.meaning self.now.message.now)
            self.now.sheet.now pieces.old self.now.records.now row }
        ensures same { pieces.new ≡ pieces.old }
    {
        self.piece_at(pieces, row)
    }
}
