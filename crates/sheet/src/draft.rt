// Rows that may be a sheet, and the rules that they have to keep.
ghost use Rattle.std.specs.Prelude.{◌≡◌, ℕ, ◌+◌, ◌<◌, ◌^◌, Bool, length, None};
ghost use Rattle.sheet.specs.Checks.{refers, is_named, meets, keeps_rule, first_failing, Tests};
ghost use Rattle.sheet.specs.Fields.{field_in, chain_names, distinct, fields_differ};
ghost use Rattle.sheet.specs.Verdict.{verdict, answer, fault_or};

use super::column::{name_of, part, target};
use super::depth::{fill_depths, is_shallow};
use super::names::Names;
use super::rule::{Family, Need, family_of, rule_of};
use sheet_text::{Column, LIMIT, MAX_ROWS, Reason, Row, SheetRefusal, TypeWord, Word, is_name};

/// Rows over the text that holds their names. Apart from `CheckedSheet`, whose rows keep every rule.
#[derive(Clone, Copy)]
pub struct Draft<'t, 'r> {
    pub text: &'t [u8],
    pub rows: &'r [Row],
}

impl<'t, 'r> Draft<'t, 'r> {
    /// The row that a column names, if there is one.
    pub(crate) fn row_of(&self, column: Column) -> Option<Row>
        ensures { result ≡ field_in self.now.rows.now column }
    {
        let k = column.number()? as usize;
        self.rows.get(k).copied()
    }

    // Whether the column of row `own` names a later row of the family.
    fn refers(&self, own: usize, column: Column, family: Family) -> bool
        ensures { result ≡ refers self.now.rows.now own family column }
    {
        target(column) > own
            && self
                .row_of(column)
                .is_some_and(|row| family_of(row.word) == family)
    }

    // Whether the column holds a name that lies in the text.
    fn is_named(&self, column: Column) -> bool
        ensures { result ≡ is_named self.now.text.now column }
    {
        match column.name() {
            Some(span) => {
                let name = part(self.text, span);
                name.len() == span.len && is_name(name)
            }
            None => false,
        }
    }

    // Whether the column of row `own` holds what it has to.
    fn meets(&self, own: usize, column: Column, need: Need) -> bool
        ensures { result ≡ meets self.now.text.now self.now.rows.now own need column }
    {
        match need {
            Need::Blank => matches!(column, Column::Blank),
            Need::Name => self.is_named(column),
            Need::Number => column.number().is_some_and(|n| n <= LIMIT),
            Need::Climb => column.number().is_some_and(|n| n <= 8),
            Need::Row(family) => self.refers(own, column, family),
            Need::RowOrBlank(family) => {
                matches!(column, Column::Blank) || self.refers(own, column, family)
            }
        }
    }

    // Whether row `own` keeps its word's rule, and is a type where it is the first.
    fn keeps_rule(&self, own: usize, row: Row) -> bool
        ensures { result ≡ keeps_rule self.now.text.now self.now.rows.now own row }
    {
        let rule = rule_of(row.word);
        self.meets(own, row.name, rule.name)
            && self.meets(own, row.one, rule.one)
            && self.meets(own, row.two, rule.two)
            && self.meets(own, row.three, rule.three)
            && (own > 0 || family_of(row.word) == Family::Type)
    }

    // Whether the fields of the chain that begins at a column have different names.
    fn names_differ(&self, first: Column) -> bool
        ensures { result ≡ distinct (chain_names (length self.now.rows.now) self.now.text.now self.now.rows.now first) }
    {
        let mut names = Names::new(*self, first);
        // No `for`: the names behind the one in hand are gone over again.
        while let Some(name) = names.next() {
            let mut later = names;
            if later.any(|other| name == other) {
                return false;
            }
        }
        true
    }

    // Whether the fields have different names, if the row is a record.
    fn fields_differ(&self, row: Row) -> bool
        ensures { result ≡ fields_differ self.now.text.now self.now.rows.now row }
    {
        match row.word {
            Word::Type(TypeWord::Rec) => self.names_differ(row.one),
            _ => true,
        }
    }

    // Refuses the first row that fails the test, for the reason.
    fn each_row<F: Fn(usize, Row) -> bool>(
        &self,
        reason: Reason,
        test: F,
    ) -> Result<(), SheetRefusal>
        requires callable { F.IsAlwaysCallable test }
        requires few { length self.now.rows.now + 2 < 2 ^ 64 }
        ensures { (p : ℕ → Row → Bool) → Tests (F.post test) p self.now.rows.now → result ≡ answer (fault_or reason (first_failing p 0 self.now.rows.now) None) }
    {
        for (k, row) in self.rows.iter().enumerate() {
            if !test(k, *row) {
                return Err(SheetRefusal {
                    reason,
                    line: k + 2,
                });
            }
        }
        Ok(())
    }

    /// Checks every rule, and refuses at the first that is broken, with the line of its lowest row.
    pub(crate) fn check(&self) -> Result<(), SheetRefusal>
        ensures { result ≡ answer (verdict self.now.text.now self.now.rows.now) }
    {
        if self.rows.is_empty() {
            return Err(SheetRefusal {
                reason: Reason::Count,
                line: 1,
            });
        }
        if self.rows.len() > MAX_ROWS {
            return Err(SheetRefusal {
                reason: Reason::Count,
                line: MAX_ROWS + 2,
            });
        }
        self.each_row(Reason::Column, |k, row| self.keeps_rule(k, row))?;
        self.each_row(Reason::Field, |_, row| self.fields_differ(row))?;
        // A table beside the rows, which are lent for reading; the memory is fixed.
        let mut table = [0; MAX_ROWS];
        let depths = &mut table[..self.rows.len()];
        fill_depths(self.rows, depths);
        self.each_row(Reason::Depth, |k, row| is_shallow(depths, k, row))
    }
}
