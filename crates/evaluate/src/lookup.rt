// Pieces by their paths.
ghost use Rattle.std.specs.Prelude.{◌≡◌};
ghost use Rattle.list.specs.Contents.{contents};
ghost use Rattle.path.specs.Meaning.{path_of, same_path};
ghost use Rattle.meaning.specs.Terms.{pieces_of};
ghost use Rattle.meaning.specs.Values.{placed};
ghost use Rattle.evaluate.specs.Evaluated.{as_piece};

use list::{BoundedList, Test};
use meaning::EvalFault;
use path::{Path, Piece};

// Passes the pieces that have the path.
#[derive(Clone, Copy)]
pub(crate) struct AtPath {
    path: Path,
}

impl Test<Piece> for AtPath {
    ghost holds = { λ s p. same_path (path_of p.path) (path_of s.path) };

    fn passes(&self, entry: &Piece) -> bool {
        entry.path == self.path
    }
}

/// The piece placed with a path, the last if there are several.
pub fn find_piece(pieces: &mut BoundedList<'_, Piece>, path: Path) -> Result<Piece, EvalFault>
    ensures value { as_piece result ≡ placed (pieces_of (contents pieces.old)) (path_of path) }
    ensures same { pieces.new ≡ pieces.old }
{
    pieces.find(&AtPath { path }).ok_or(EvalFault::NoValue)
}
