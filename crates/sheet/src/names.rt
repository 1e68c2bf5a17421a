// The names of a record's fields, one after the other.
ghost use Rattle.std.specs.Prelude.{◌≡◌, length};
ghost use Rattle.std.specs.Iterator.{YieldsFirstRef, item_count};
ghost use Rattle.sheet.specs.Names.{names_left};

use super::column::name_of;
use super::draft::Draft;
use sheet_text::Column;

/// The names of the fields that a column begins, at most so many.
#[derive(Clone, Copy)]
pub struct Names<'t, 'r> {
    draft: Draft<'t, 'r>,
    column: Column,
    left: usize,
}

impl<'t, 'r> Names<'t, 'r> {
    /// The names of all fields that a column begins.
    pub(crate) fn new(draft: Draft<'t, 'r>, column: Column) -> Names<'t, 'r>
        ensures draft { result.draft ≡ draft.entry }
        ensures column { result.column ≡ column }
        ensures left { result.left ≡ length draft.entry.rows.now }
    {
        Names {
            draft,
            column,
            left: draft.rows.len(),
        }
    }
}

impl<'t, 'r> Iterator for Names<'t, 'r> {
    type Item = &'t [u8];

    ghost next_gives = { YieldsFirstRef names_left };

    ghost remaining = { item_count names_left };

    fn next(&mut self) -> Option<&'t [u8]> {
        self.left = self.left.checked_sub(1)?;
        let field = self.draft.row_of(self.column)?;
        self.column = field.two;
        Some(name_of(self.draft.text, field.name))
    }
}
