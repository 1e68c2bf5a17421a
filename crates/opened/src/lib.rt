// Where a row stands: its path, and the records that are open around it.
#![tactic(auto)]

ghost use Rattle.std.specs.Prelude.{◌≡◌, ◌≤◌, true, length};
ghost use Rattle.path.specs.Meaning.{path_of};
ghost use Rattle.opened.specs.Below.{below};

mod calls;

use path::Path;

/// How many records can be open at once.
pub const RECORDS_MAX: usize = 9;

/// The open records are fronts of the path; they are kept by their lengths, outermost first. The memory
/// is fixed, since rows stand in lists that callers lend.
#[derive(Clone, Copy)]
pub struct Opened {
    path: Path,
    lens: [u8; 9],
    count: u8,
    ghost few: { count ≤ 9 },
    ghost full: { length lens ≡ 9 },
    ghost inside: { below (length (path_of path)) lens count ≡ true },
}
