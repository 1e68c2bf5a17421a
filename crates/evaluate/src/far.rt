// How far out the locations of numbers and truths start.
ghost use Rattle.std.specs.Prelude.{◌≡◌, ◌≤◌, length};
ghost use Rattle.sheet.specs.Sheets.{rows_of, text_of};
ghost use Rattle.meaning.specs.Forward.{LeadsOn};
ghost use Rattle.meaning.specs.Stands.{number_at, steps_at, truth_at};
ghost use Rattle.laws.specs.Quiet.{far, far_steps, far_truth};
ghost use Rattle.evaluate.specs.Fars.{far_from, far_number_row, far_steps_row, far_truth_row};

use crate::rows::{ref_in, row_at};
use sheet::{CheckedSheet, target};
use sheet_text::{NumberWord, Row, StepWord, TruthWord, Word};

// Whether each location of a number row climbs at least k.
#[cycle(fars)]
fn number_at(sheet: &CheckedSheet<'_, '_>, row: usize, k: usize) -> bool
    ensures { result ≡ far k (number_at (text_of sheet.now) (rows_of sheet.now) row) }
{
    number_by(sheet, row, row_at(sheet, row), k)
}

// The same by the row's word and columns; `row` is there for the measure.
#[cycle(fars)]
fn number_by(sheet: &CheckedSheet<'_, '_>, row: usize, r: Row, k: usize) -> bool
    requires leads { LeadsOn (rows_of sheet.now) row r }
    requires few { length (rows_of sheet.now) ≤ 256 }
    ensures { result ≡ far_number_row sheet.now k r }
{
    let Word::Number(word) = r.word else {
        return true;
    };
    match word {
        NumberWord::Lit => true,
        NumberWord::Loc => place_at(sheet, target(r.one), k),
        NumberWord::Add | NumberWord::Mul => {
            number_at(sheet, target(r.one), k) & number_at(sheet, target(r.two), k)
        }
    }
}

// Of a `from` row.
#[cycle(fars)]
fn place_at(sheet: &CheckedSheet<'_, '_>, row: usize, k: usize) -> bool
    ensures { result ≡ far_from sheet.now k row }
{
    let r = row_at(sheet, row);
    let Word::From = r.word else {
        return true;
    };
    (k <= target(r.one)) & steps_at(sheet, ref_in(r.two), k)
}

// Of steps.
#[cycle(fars)]
fn steps_at(sheet: &CheckedSheet<'_, '_>, row: Option<usize>, k: usize) -> bool
    ensures { result ≡ far_steps k (steps_at (text_of sheet.now) (rows_of sheet.now) row) }
{
    let Some(at) = row else {
        return true;
    };
    steps_by(sheet, at, row_at(sheet, at), k)
}

#[cycle(fars)]
fn steps_by(sheet: &CheckedSheet<'_, '_>, row: usize, r: Row, k: usize) -> bool
    requires leads { LeadsOn (rows_of sheet.now) row r }
    requires few { length (rows_of sheet.now) ≤ 256 }
    ensures { result ≡ far_steps_row sheet.now k r }
{
    let Word::Step(word) = r.word else {
        return true;
    };
    match word {
        StepWord::Dot => steps_at(sheet, ref_in(r.one), k),
        StepWord::Idx => number_at(sheet, target(r.one), k) & steps_at(sheet, ref_in(r.two), k),
    }
}

// Of a truth row.
#[cycle(far_truths)]
fn truth_at(sheet: &CheckedSheet<'_, '_>, row: usize, k: usize) -> bool
    ensures { result ≡ far_truth k (truth_at (text_of sheet.now) (rows_of sheet.now) row) }
{
    truth_by(sheet, row, row_at(sheet, row), k)
}

#[cycle(far_truths)]
fn truth_by(sheet: &CheckedSheet<'_, '_>, row: usize, r: Row, k: usize) -> bool
    requires leads { LeadsOn (rows_of sheet.now) row r }
    requires few { length (rows_of sheet.now) ≤ 256 }
    ensures { result ≡ far_truth_row sheet.now k r }
{
    let Word::Truth(word) = r.word else {
        return true;
    };
    match word {
        TruthWord::True | TruthWord::False => true,
        TruthWord::Bloc => place_at(sheet, target(r.one), k),
        TruthWord::Not => truth_at(sheet, target(r.one), k),
        TruthWord::And | TruthWord::Or => {
            truth_at(sheet, target(r.one), k) & truth_at(sheet, target(r.two), k)
        }
        TruthWord::Eq | TruthWord::Lt => {
            number_at(sheet, target(r.one), k) & number_at(sheet, target(r.two), k)
        }
    }
}

/// Whether each location of a number row climbs at least so many records.
pub fn far_number(sheet: &CheckedSheet<'_, '_>, row: usize, k: usize) -> bool
    ensures { result ≡ far k (number_at (text_of sheet.now) (rows_of sheet.now) row) }
{
    number_at(sheet, row, k)
}

/// Whether each location of a truth row does.
pub fn far_truth(sheet: &CheckedSheet<'_, '_>, row: usize, k: usize) -> bool
    ensures { result ≡ far_truth k (truth_at (text_of sheet.now) (rows_of sheet.now) row) }
{
    truth_at(sheet, row, k)
}
