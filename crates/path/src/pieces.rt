ghost use Rattle.std.specs.Prelude.{◌≡◌, ◌≤◌, ℕ, []};
ghost use Rattle.path.specs.Meaning.{path_of};

use super::{PIECE_SIZE, Path, Piece};

impl Piece {
    /// A piece to fill a list with.
    pub fn blank() -> Piece
        ensures size { PIECE_SIZE ≡ 152 }
        ensures value { (path_of result.path ≡ []) × (result.row ≡ 0) × (result.place ≡ 0) × (result.width ≡ 0) }
    {
        Piece {
            path: Path::root(),
            row: 0,
            place: 0,
            width: 0,
        }
    }
}
