// Where the pieces of a walk go.
ghost use Rattle.std.specs.Prelude.{◌≡◌, ◌+◌, List, [], ◌∷◌, ◌++◌, MatchResult};
ghost use Rattle.meaning.specs.Bars.{Bars, EndsWithin};
ghost use Rattle.walk.specs.Faults.{bar_of};
ghost use Rattle.list.specs.declared.BoundedList.{BoundedList};
ghost use Rattle.path.specs.declared.Piece.{Piece};
ghost use Rattle.list.specs.Contents.{backing, contents};
ghost use Rattle.meaning.specs.Terms.{piece_of, pieces_of};

use list::BoundedList;
use meaning::LayFault;
use path::Piece;

// Where a piece ends.
pub(crate) fn end_of(piece: &Piece) -> usize
    ensures { result ≡ piece.now.place + piece.now.width }
{
    usize::from(piece.place) + usize::from(piece.width)
}

/// What is done with a base row: a piece goes behind those placed, or is not taken.
pub trait Placer {
    // why a piece is not taken behind those placed, if it is not; it may hang on all entries of the
    // list, in use or not
    ghost bars: { Self → List Piece → Bars };

    // what each `impl` must prove: no piece is taken that ends behind the last place
    ghost ends: { (s : Self) (entries : List Piece) → EndsWithin 65535 (bars s entries) };

    // what is still true of the list's memory, given the entries that it had when the walk began
    ghost leaves: { Self → List Piece → BoundedList Piece → Type 0 };

    // what each `impl` must prove: it is true when the walk begins
    ghost begins: { (s : Self) (l : BoundedList Piece) → leaves s (backing l) l };

    /// Takes the piece behind those of the list, or leaves the list as it is.
    fn place(&self, pieces: &mut BoundedList<'_, Piece>, piece: Piece) -> Result<(), LayFault>
        ensures answer { bars self.now (backing pieces.old) (pieces_of (contents pieces.old))
            (piece_of piece)
            ≡ bar_of result }
        ensures pieces { MatchResult result
            (λ _. pieces_of (contents pieces.new)
            ≡ pieces_of (contents pieces.old) ++ piece_of piece ∷ [])
            (λ _. pieces_of (contents pieces.new) ≡ pieces_of (contents pieces.old)) }
        ensures bars { bars self.now (backing pieces.new) ≡ bars self.now (backing pieces.old) }
        ensures leaves { (entries : List Piece) → leaves self.now entries pieces.old
            → leaves self.now entries pieces.new }
        ensures lender { pieces.new.entries.ghost_name ≡ pieces.old.entries.ghost_name };
}
