// How deep the types of a sheet nest.
ghost use Rattle.std.specs.Prelude.{◌≡◌, ℕ, ◌+◌, ◌<◌, ◌≤◌, length, drop, slice_index};
ghost use Rattle.sheet.specs.Depths.{depth_in, row_depth, entries, shallow};

use super::column::target;
use super::rule::{Family, family_of};
use sheet_text::{Column, Row, TypeWord, Word};

// The entry of the later row that a column of row `own` names.
fn entry(depths: &[usize], own: usize, column: Column) -> usize
    requires { own < length depths.now }
    ensures { result ≡ depth_in own (drop (own + 1) depths.now) column }
{
    let later = target(column);
    if later > own {
        depths.get(later).copied().unwrap_or(0)
    } else {
        0
    }
}

// The entry of row `own` from those of the later rows.
fn row_depth(row: Row, own: usize, depths: &[usize]) -> usize
    requires own_in_bounds { own < length depths.now }
    requires by_index { (i : ℕ) → slice_index (drop (own + 1) depths.now) i ≤ 256 }
    ensures { result ≡ row_depth own row (drop (own + 1) depths.now) }
{
    match row.word {
        Word::Type(TypeWord::Rec) if matches!(row.one, Column::Blank) => 0,
        Word::Type(TypeWord::Rec) | Word::Type(TypeWord::Arr) => entry(depths, own, row.one) + 1,
        Word::Type(TypeWord::Alt) => entry(depths, own, row.two).max(entry(depths, own, row.three)),
        Word::Field => entry(depths, own, row.one).max(entry(depths, own, row.two)),
        _ => 0,
    }
}

// Writes the entry of each row.
pub(crate) fn fill_depths(rows: &[Row], depths: &mut [usize])
    requires depths_len { length depths.old ≡ length rows.now }
    requires rows_len_bound { length rows.now ≤ 256 }
    ensures { depths.new ≡ entries 0 rows.now }
{
    // By index, since each entry is made from those of the rows after it.
    for k in (0..rows.len()).rev() {
        depths[k] = row_depth(rows[k], k, depths);
    }
}

// Whether row k is no type, or its depth is at most 8.
pub(crate) fn is_shallow(depths: &[usize], k: usize, row: Row) -> bool
    ensures { result ≡ shallow depths.now k row }
{
    family_of(row.word) != Family::Type || depths.get(k).copied().unwrap_or(0) <= 8
}
