// Arrays of base rows: a piece for each element, with no row opened in between.
ghost use Rattle.std.specs.Prelude.{◌≡◌, ℕ, ◌-◌, ◌<◌, Bool, List, [], ◌∷◌, ◌++◌, length, Some};
ghost use Rattle.std.specs.Prelude.{MatchResult};
ghost use Rattle.list.specs.Contents.{backing};
ghost use Rattle.path.specs.Meaning.{path_of, element};
ghost use Rattle.sheet.specs.Sheets.{rows_of, text_of};
ghost use Rattle.meaning.specs.Terms.{Path as Steps};
ghost use Rattle.meaning.specs.Stands.{base_at};
ghost use Rattle.meaning.specs.Matcher.{accepted, refused};
ghost use Rattle.walk.specs.Frames.{in_array, placed_of, through};
ghost use Rattle.walk.specs.Placers.{Keeps};
ghost use Rattle.walk.specs.Walks.{Reached};

use crate::fault::Halt;
use crate::parts::element_step;
use crate::placer::Placer;
use crate::walker::Walker;
use evaluate::message::Message;
use list::BoundedList;
use path::{Path, Piece};
use sheet_text::Base;

// The path of an element.
fn element_path(here: Path, index: u16) -> Path
    requires short { length (path_of here) < 8 }
    requires index { index < 65535 }
    ensures { path_of result ≡ path_of here ++ element index ∷ [] }
{
    let Some(there) = here.child(element_step(index)) else {
        unreachable!();
    };
    there
}

impl<M: Message, P: Placer> Walker<'_, '_, '_, M, P> {
    // The elements of an array from one on become pieces, or one of them stops the walk. Answers
    // the place reached.
    pub(crate) fn bases(
        &self,
        pieces: &mut BoundedList<'_, Piece>,
        here: Path,
        row: usize,
        base: Base,
        index: u16,
        count: u16,
        start: usize,
    ) -> Result<usize, Halt>
        requires row { row < 65536 }
        requires word { base_at (rows_of self.now.sheet.now) row ≡ Some base }
        requires short { length (path_of here) < 8 }
        requires reached { Reached (placed_of pieces.now) start }
        ensures outcome { MatchResult result
            (λ q. ((O : List Steps)
            → through (text_of self.now.sheet.now) (rows_of self.now.sheet.now)
            (M.Message.meaning self.now.message.now)
            (P.Placer.bars self.now.placer.now (backing pieces.old))
            (in_array (path_of here) O row index (count - index)) (placed_of pieces.old)
            ≡ accepted (placed_of pieces.new))
            × Reached (placed_of pieces.new) q)
            (λ e. ((O : List Steps)
            → through (text_of self.now.sheet.now) (rows_of self.now.sheet.now)
            (M.Message.meaning self.now.message.now)
            (P.Placer.bars self.now.placer.now (backing pieces.old))
            (in_array (path_of here) O row index (count - index)) (placed_of pieces.old)
            ≡ refused e.fault e.row (placed_of pieces.new))
            × Reached (placed_of pieces.new) e.place) }
        ensures keeps { Keeps (P.Placer.bars self.now.placer.now)
            (P.Placer.leaves self.now.placer.now)
            pieces.old pieces.new }
    {
        let mut place = start;
        let mut there = element_path(here, 0);
        for i in index..count {
            there.turn(element_step(i));
            match self.put(pieces, there, row, base, place) {
                Ok(further) => place = further,
                Err(fault) => {
                    return Err(Halt {
                        fault,
                        row: row as u16,
                        place,
                    });
                }
            }
        }
        Ok(place)
    }
}
