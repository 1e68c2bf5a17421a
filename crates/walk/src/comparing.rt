// Pieces are compared with those that are kept.
ghost use Rattle.std.specs.Prelude.{◌≡◌, ◌<◌, ◌≤◌, Some, None, MatchOption, refl};
ghost use Rattle.list.specs.Contents.{backing, contents, used};
ghost use Rattle.meaning.specs.Bars.{only};
ghost use Rattle.meaning.specs.Kept.{same_piece};
ghost use Rattle.meaning.specs.Terms.{piece_of};
ghost use Rattle.walk.specs.Placers.{kept_of, only_end};

use crate::placer::{Placer, end_of};
use evaluate::message::Message;
use list::BoundedList;
use meaning::LayFault;
use path::Piece;

/// Takes nothing but the next of the kept pieces, which are the first entries of the list, as long
/// as it ends within a message.
#[derive(Clone, Copy)]
pub struct Comparing {
    len: usize,
    kept: usize,
    ghost few: { len ≤ 65535 },
}

// Whether two pieces are the same.
fn same(a: &Piece, b: &Piece) -> bool
    ensures { result ≡ same_piece (piece_of a.now) (piece_of b.now) }
{
    a.path == b.path && a.row == b.row && a.place == b.place && a.width == b.width
}

impl Comparing {
    /// With so many kept pieces, of a message as long as this.
    pub fn of<M: Message>(message: &M, kept: usize) -> Comparing
        ensures len { result.len ≡ (M.Message.meaning message.now).len }
        ensures kept { result.kept ≡ kept }
    {
        Comparing {
            len: message.len(),
            kept,
        }
    }
}

impl Placer for Comparing {
    ghost bars = { λ s entries. only s.len (kept_of s.kept entries) };

    ghost ends = { λ s entries. only_end s.len (kept_of s.kept entries) s.few };

    ghost leaves = { λ s entries l. backing l ≡ entries };

    ghost begins = { λ s l. refl };

    fn place(&self, pieces: &mut BoundedList<'_, Piece>, piece: Piece) -> Result<(), LayFault> {
        if end_of(&piece) > self.len {
            return Err(LayFault::PastEnd);
        }
        let placed = pieces.len();
        if placed >= self.kept {
            return Err(LayFault::NotKept);
        }
        let Some(next) = pieces.restore() else {
            return Err(LayFault::NotKept);
        };
        if same(&next, &piece) {
            return Ok(());
        }
        pieces.truncate(placed);
        Err(LayFault::NotKept)
    }
}
