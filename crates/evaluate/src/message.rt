// What values are worked out from.
ghost use Rattle.std.specs.Prelude.{◌≡◌, ◌≤◌};
ghost use Rattle.sheet.specs.Sheets.{rows_of};
ghost use Rattle.meaning.specs.Terms.{piece_of};
ghost use Rattle.meaning.specs.Values.{over};
ghost use Rattle.meaning.specs.Values as values;

use crate::rows::base_at;
use cells::source::Source;
use content::{is_true, value_of};
use meaning::EvalFault;
use path::Piece;
use sheet::CheckedSheet;
use sheet_text::Base;

/// A message: how long it is, and what a placed piece gives as a number and as a truth.
pub trait Message {
    // what it means
    ghost meaning: { Self → values.Message };

    // what each `impl` must prove
    ghost few: { (s : Self) → (meaning s).len ≤ 65535 };

    /// The number of cells.
    fn len(&self) -> usize
        ensures { result ≡ (meaning self.now).len };

    /// What a piece gives as a number.
    fn number(&self, piece: &Piece) -> Result<u64, EvalFault>
        ensures { result ≡ (meaning self.now).piece_number (piece_of piece.now) };

    /// What a piece gives as a truth.
    fn truth(&self, piece: &Piece) -> Result<bool, EvalFault>
        ensures { result ≡ (meaning self.now).piece_truth (piece_of piece.now) };
}

/// The message of a source, by the base words of a sheet's rows.
#[derive(Drop)]
pub struct BySheet<'m, 't, 'r, S> {
    pub sheet: &'m CheckedSheet<'t, 'r>,
    pub source: &'m S,
}

impl<S: Source> Message for BySheet<'_, '_, '_, S> {
    ghost meaning = { λ s. over (rows_of s.sheet.now) (S.Source.cells s.source.now) };

    ghost few = { λ s. (S.Source.lawful s.source.now).bounded };

    fn len(&self) -> usize {
        self.source.len()
    }

    fn number(&self, piece: &Piece) -> Result<u64, EvalFault> {
        value_of(self.source, piece)
    }

    fn truth(&self, piece: &Piece) -> Result<bool, EvalFault> {
        match base_at(self.sheet, usize::from(piece.row)) {
            Some(Base::Bool) => is_true(self.source, piece),
            _ => Err(EvalFault::Word),
        }
    }
}
