// Why a sheet is refused.
ghost use Rattle.std.specs.Prelude.{◌≡◌, ◌+◌, ◌<◌, ◌^◌};
ghost use Rattle.sheet_text.specs.Refusals.{at_row, sheet_told};

use told::Told;

/// The reasons, each with its number.
#[derive(Clone, Copy)]
pub enum Reason {
    // The first line is wrong or has no line feed.
    Header = 1,
    // A line is not six values, has a wrong row number or no line feed.
    Line = 2,
    // The word is not in the table.
    Word = 3,
    // A column breaks its word's rule, or row 0 is no type.
    Column = 4,
    // One name stands twice in a record.
    Field = 5,
    // There is no row, or more than 256, or the row table is full.
    Count = 6,
    // A depth is above 8.
    Depth = 7,
}

/// A refusal with its line; lines count from 1.
#[derive(Clone, Copy)]
pub struct SheetRefusal {
    pub reason: Reason,
    pub line: usize,
}

impl SheetRefusal {
    // The refusal of the line that states row k.
    pub(crate) fn at_row(reason: Reason, k: usize) -> SheetRefusal
        requires { k + 2 < 2 ^ 64 }
        ensures { result ≡ at_row reason k }
    {
        SheetRefusal {
            reason,
            line: k + 2,
        }
    }
}

// The refusal as it is told: its number and its line.
impl From<SheetRefusal> for Told {
    ghost from_gives = { λ e r. r ≡ sheet_told e };

    fn from(e: SheetRefusal) -> Told {
        Told {
            line: Some(e.line as u64),
            ..Told::bare(e.reason as u8)
        }
    }
}
