// The walk: the open rows are worked off, the innermost first.
ghost use Rattle.std.specs.Prelude.{◌≡◌, ◌-◌, ◌≤◌, List, [], ◌∷◌, length};
ghost use Rattle.list.specs.Contents.{backing, contents, room};
ghost use Rattle.path.specs.Meaning.{path_of};
ghost use Rattle.opened.specs.Opens.{records_of};
ghost use Rattle.sheet.specs.Sheets.{rows_of, text_of};
ghost use Rattle.meaning.specs.Terms.{pieces_of};
ghost use Rattle.meaning.specs.Matcher.{matched};
ghost use Rattle.walk.specs.Frames.{in_array, in_front, frame_of, open_of, placed_of, resume};
ghost use Rattle.walk.specs.Placers.{Keeps};
ghost use Rattle.walk.specs.Turns.{AllShallow};
ghost use Rattle.walk.specs.Walks.{Ends, Reached, TurnEnds};

use crate::fault::Halt;
use crate::frames::{Frame, pop, push};
use crate::parts::{next_element, next_field};
use crate::placer::Placer;
use crate::walker::Walker;
use evaluate::message::Message;
use evaluate::rows::base_at;
use list::BoundedList;
use opened::Opened;
use path::Piece;
use sheet::CheckedSheet;

// One place more than rows can be open, so that the list of them is never full.
const OPEN_PLACES: usize = 10;

// After so many turns that placed nothing, open rows go on without the parts that are quiet.
const IDLE_TURNS: u32 = 256;

// The turns since a piece was placed, as far as they count.
fn counted_on(idle: u32, placed: bool) -> u32 {
    if placed {
        return 0;
    }
    idle.saturating_add(1)
}

impl<M: Message, P: Placer> Walker<'_, '_, '_, M, P> {
    // The row in front is opened, or stops the walk.
    fn front(
        &self,
        pieces: &mut BoundedList<'_, Piece>,
        frames: &mut BoundedList<'_, Frame>,
        here: Opened,
        row: usize,
        place: usize,
    ) -> Result<usize, Halt>
        requires shallow { AllShallow (text_of self.now.sheet.now) (rows_of self.now.sheet.now)
            (in_front (path_of here.path) (records_of here) row ∷ open_of frames.now) }
        requires room { 10 ≤ room frames.now }
        requires reached { Reached (placed_of pieces.now) place }
        ensures outcome { TurnEnds self.now.sheet.now (M.Message.meaning self.now.message.now)
            (P.Placer.bars self.now.placer.now (backing pieces.old))
            (in_front (path_of here.path) (records_of here) row ∷ open_of frames.old)
            (placed_of pieces.old) (open_of frames.new) (placed_of pieces.new) result }
        ensures keeps { Keeps (P.Placer.bars self.now.placer.now)
            (P.Placer.leaves self.now.placer.now)
            pieces.old pieces.new }
        ensures room { room frames.new ≡ room frames.old }
    {
        match self.open(pieces, frames, here, row, place) {
            Ok(further) => Ok(further),
            Err(fault) => Err(Halt {
                fault,
                row: row as u16,
                place,
            }),
        }
    }

    // The next element of an array, and the array behind it; or all that are left, where they are
    // of a base row.
    fn next_elements(
        &self,
        pieces: &mut BoundedList<'_, Piece>,
        frames: &mut BoundedList<'_, Frame>,
        here: Opened,
        element: usize,
        index: u16,
        count: u16,
        place: usize,
    ) -> Result<usize, Halt>
        requires shallow { AllShallow (text_of self.now.sheet.now) (rows_of self.now.sheet.now)
            (in_array (path_of here.path) (records_of here) element index (count - index) ∷ open_of
            frames.now) }
        requires room { 10 ≤ room frames.now }
        requires reached { Reached (placed_of pieces.now) place }
        ensures outcome { TurnEnds self.now.sheet.now (M.Message.meaning self.now.message.now)
            (P.Placer.bars self.now.placer.now (backing pieces.old))
            (in_array (path_of here.path) (records_of here) element index (count - index) ∷ open_of
            frames.old) (placed_of pieces.old) (open_of frames.new) (placed_of pieces.new) result }
        ensures keeps { Keeps (P.Placer.bars self.now.placer.now)
            (P.Placer.leaves self.now.placer.now)
            pieces.old pieces.new }
        ensures room { room frames.new ≡ room frames.old }
    {
        let Some(base) = base_at(self.sheet, element) else {
            next_element(self.sheet, frames, here, element, index, count);
            return Ok(place);
        };
        self.bases(pieces, here.path(), element, base, index, count, place)
    }

    // One turn: the innermost open row gives way to its parts. Answers the place reached.
    fn turn(
        &self,
        pieces: &mut BoundedList<'_, Piece>,
        frames: &mut BoundedList<'_, Frame>,
        frame: Frame,
        place: usize,
    ) -> Result<usize, Halt>
        requires shallow { AllShallow (text_of self.now.sheet.now) (rows_of self.now.sheet.now)
            (frame_of frame ∷ open_of frames.now) }
        requires room { 10 ≤ room frames.now }
        requires reached { Reached (placed_of pieces.now) place }
        ensures outcome { TurnEnds self.now.sheet.now (M.Message.meaning self.now.message.now)
            (P.Placer.bars self.now.placer.now (backing pieces.old))
            (frame_of frame ∷ open_of frames.old) (placed_of pieces.old) (open_of frames.new)
            (placed_of pieces.new) result }
        ensures keeps { Keeps (P.Placer.bars self.now.placer.now)
            (P.Placer.leaves self.now.placer.now)
            pieces.old pieces.new }
        ensures room { room frames.new ≡ room frames.old }
    {
        match frame {
            Frame::Front { here, row } => self.front(pieces, frames, here, row, place),
            Frame::Record { here, next } => {
                next_field(self.sheet, frames, here, next);
                Ok(place)
            }
            Frame::Array {
                here,
                element,
                index,
                count,
            } => { self.next_elements(pieces, frames, here, element, index, count, place) }
        }
    }

    // Works off the open rows, with no piece placed yet.
    fn work_off(
        &self,
        pieces: &mut BoundedList<'_, Piece>,
        frames: &mut BoundedList<'_, Frame>,
    ) -> Result<usize, Halt>
        requires shallow { AllShallow (text_of self.now.sheet.now) (rows_of self.now.sheet.now)
            (open_of frames.now) }
        requires room { 10 ≤ room frames.now }
        requires none { contents pieces.now ≡ [] }
        ensures outcome { Ends
            (resume (text_of self.now.sheet.now) (rows_of self.now.sheet.now)
            (M.Message.meaning self.now.message.now)
            (P.Placer.bars self.now.placer.now (backing pieces.old)) (open_of frames.old) [])
            (placed_of pieces.new) result }
        ensures keeps { Keeps (P.Placer.bars self.now.placer.now)
            (P.Placer.leaves self.now.placer.now)
            pieces.old pieces.new }
    {
        let mut place = 0;
        let mut idle = 0;
        while let Some(frame) = pop(frames) {
            let further = self.turn(pieces, frames, frame, place)?;
            idle = counted_on(idle, further > place);
            place = further;
            if idle >= IDLE_TURNS {
                self.hush(pieces, frames);
            }
        }
        Ok(place)
    }
}

/// Walks over the message by the sheet, from the empty list on. Answers the place reached, or what
/// stops it.
pub fn walk<M: Message, P: Placer>(
    sheet: &CheckedSheet<'_, '_>,
    message: &M,
    placer: &P,
    pieces: &mut BoundedList<'_, Piece>,
) -> Result<usize, Halt>
    ensures outcome { Ends
        (matched (text_of sheet.now) (rows_of sheet.now) (M.Message.meaning message.now)
        (P.Placer.bars placer.now (backing pieces.old)))
        (pieces_of (contents pieces.new)) result }
    ensures leaves { P.Placer.leaves placer.now (backing pieces.old) pieces.new }
    ensures lender { pieces.new.entries.ghost_name ≡ pieces.old.entries.ghost_name }
{
    let first = Frame::Front {
        here: Opened::root(),
        row: 0,
    };
    let mut open = [first; OPEN_PLACES];
    let mut frames = BoundedList::new(&mut open);
    push(&mut frames, first);
    pieces.clear();
    let walker = Walker {
        sheet,
        message,
        placer,
    };
    walker.work_off(pieces, &mut frames)
}
