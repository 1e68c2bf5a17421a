// Pieces are recorded.
ghost use Rattle.std.specs.Prelude.{◌≡◌, ◌≤◌, length};
ghost use Rattle.meaning.specs.Bars.{places};
ghost use Rattle.walk.specs.Placers.{Recorded, recorded_nothing, places_end};

use crate::placer::{Placer, end_of};
use evaluate::message::Message;
use list::BoundedList;
use meaning::LayFault;
use path::Piece;

/// Takes a piece that ends within a message, as long as the list has a place for it.
#[derive(Clone, Copy)]
pub struct Recording {
    len: usize,
    ghost few: { len ≤ 65535 },
}

impl Recording {
    /// Of a message as long as this.
    pub fn of<M: Message>(message: &M) -> Recording
        ensures { result.len ≡ (M.Message.meaning message.now).len }
    {
        Recording { len: message.len() }
    }
}

impl Placer for Recording {
    ghost bars = { λ s entries. places s.len (length entries) };

    ghost ends = { λ s entries. places_end s.len (length entries) s.few };

    ghost leaves = { λ s entries l. Recorded entries l };

    ghost begins = { λ s l. recorded_nothing l };

    fn place(&self, pieces: &mut BoundedList<'_, Piece>, piece: Piece) -> Result<(), LayFault> {
        if end_of(&piece) > self.len {
            return Err(LayFault::PastEnd);
        }
        pieces.push(piece).map_err(|_| LayFault::Full)
    }
}
