// A sheet that keeps every rule.
ghost use Rattle.std.specs.Prelude.{◌≡◌, ◌<◌, ◌≤◌, true, [], length, if◌then◌else◌, Err};
ghost use Rattle.told.specs.Answers.{as_told};
ghost use Rattle.sheet_text.specs.Refusals.{sheet_told};
ghost use Rattle.sheet.specs.Keeps.{Keeps};
ghost use Rattle.sheet.specs.Readings.{Judges};
ghost use Rattle.sheet.specs.Verdict.{lawful, verdict, answer, word_if, one_byte};

use super::draft::Draft;
use sheet_text::{Base, Row, SheetRefusal, TypeWord, Word};

/// A sheet: rows over the text that holds their names, which keep every rule.
#[derive(Clone, Copy)]
pub struct CheckedSheet<'t, 'r> {
    text: &'t [u8],
    rows: &'r [Row],
    ghost ok: { lawful text.now rows.now ≡ true },
}

static BYTE: [Row; 1] = [Row {
    word: Word::Type(TypeWord::Base(Base::U8)),
    ..Row::BLANK
}];

impl<'t, 'r> CheckedSheet<'t, 'r> {
    /// The sheet of one u8.
    pub fn built_in() -> CheckedSheet<'t, 'r>
        ensures rows { result.rows.now ≡ one_byte }
        ensures text { result.text.now ≡ [] }
    {
        CheckedSheet {
            text: b"",
            rows: &BYTE,
        }
    }

    /// Makes this the sheet of the rows over the text, or leaves it as it was where they break a rule.
    #[tactic(auto, using(crate::proofs::Whole::judged))]
    pub fn fill(&mut self, text: &'t [u8], rows: &'r [Row]) -> Result<(), SheetRefusal>
        ensures told { as_told sheet_told result ≡ as_told sheet_told (answer (verdict text.now rows.now)) }
        ensures result { result ≡ answer (verdict text.now rows.now) }
        ensures rows { self.new.rows.now ≡ (if lawful text.now rows.now then rows.now else self.old.rows.now) }
        ensures text { self.new.text.now ≡ (if lawful text.now rows.now then text.now else self.old.text.now) }
        ensures kept { (e : SheetRefusal) → result ≡ Err e → self.new ≡ self.old }
        ensures judges { Judges text.now rows.now result }
    {
        Draft { text, rows }.check()?;
        *self = CheckedSheet { text, rows };
        Ok(())
    }

    /// How many rows it has: 1 to 256.
    #[tactic(auto, using(crate::proofs::Lawful::some_rows, crate::proofs::Lawful::few_rows))]
    pub fn len(&self) -> usize
        ensures is { result ≡ length self.now.rows.now }
        ensures some { 0 < result }
        ensures few { result ≤ 256 }
    {
        self.rows.len()
    }

    /// The rows, which keep every rule.
    #[tactic(auto, using(crate::proofs::Keeping::keeps))]
    pub fn rows(&self) -> &'r [Row]
        ensures is { result.now ≡ self.now.rows.now }
        ensures keeps { Keeps self.now.text.now self.now.rows.now }
    {
        self.rows
    }

    /// The text that holds the names.
    pub fn text(&self) -> &'t [u8]
        ensures { result.now ≡ self.now.text.now }
    {
        self.text
    }

    /// The word of a row.
    pub fn word(&self, row: usize) -> Option<Word>
        ensures { result ≡ word_if self.now.rows.now row }
    {
        self.rows.get(row).map(|found| found.word)
    }
}
