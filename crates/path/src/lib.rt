// Paths: where a piece stands below the root.
#![tactic(auto)]

ghost use Rattle.std.specs.Prelude.{◌≡◌, ◌≤◌, true, length, take};
ghost use Rattle.sheet_text.specs.Chars.{is_name};

mod names;
mod parse;
mod paths;
mod pieces;
mod print;
#[cfg(test)]
mod tests;

/// How many steps a path can have.
pub const STEPS_MAX: usize = 8;
/// The highest number that an element can have.
pub const INDEX_MAX: u64 = 65534;
/// No path is longer in print.
pub const PRINTED_MAX: usize = 140;
/// How many bytes of memory a piece takes.
pub const PIECE_SIZE: usize = size_of::<Piece>();

/// The name of a field: the first `len` of the bytes. Names and paths stand whole in pieces, which
/// are copied into lists that callers lend; so they have fixed memory, and no heap text.
#[derive(Clone, Copy)]
pub struct Name {
    bytes: [u8; 16],
    len: u8,
    ghost short: { len ≤ 16 },
    ghost proper: { is_name (take len bytes) ≡ true },
}

/// The number of an element of an array.
#[derive(Clone, Copy, PartialEq)]
pub struct Element {
    number: u16,
    ghost small: { number ≤ 65534 },
}

/// One step of a path: into a field of a record or into an element of an array. Neither is a
/// failure, so it is an enum of its own and no Result.
#[derive(Clone, Copy)]
pub enum Step {
    Field(Name),
    Index(Element),
}

/// The first `len` of the steps, from the root down, in fixed memory as a name.
#[derive(Clone, Copy)]
pub struct Path {
    steps: [Step; 8],
    len: u8,
    ghost full: { length steps ≡ 8 },
    ghost short: { len ≤ 8 },
}

/// A placed base row: where it stands below the root, its row, its first place and its width.
#[derive(Clone, Copy)]
pub struct Piece {
    pub path: Path,
    pub row: u16,
    pub place: u16,
    pub width: u8,
    ghost narrow: { width ≤ 8 },
}
